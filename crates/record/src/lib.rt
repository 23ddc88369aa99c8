// The index record: the 28 fields that a frame carries, kept as document 01 numbers them.
// Fields 1 to 10 are the ten parameters, 11 to 26 the sixteen subframe indices (PD, PG, CI, CG of subframes 1 to 4),
// 27 the expansion bit SP, 28 the synchronization bit SY.
#![tactic(auto)]

ghost use Rattle.std.specs.Prelude.{◌≡◌};
ghost use Rattle.record.specs.Fields.{indices_of, field_named, too_large_field};

// All fields are 16 bits, so that an index too large for its field is still there to be reported.
#[derive(Clone, Copy)]
pub struct Record {
    pub lsp: [u16; 10],
    pub subframes: [u16; 16],
    pub sp: u16,
    pub sy: u16,
}

impl Record {
    // How many fields there are.
    pub const FIELDS: usize = 28;

    // How many bits each field has, field 1 first: the ten LSPs, the four indices of each subframe, SP, SY.
    #[rattlefmt::skip]
    pub const WIDTHS: [u16; 28] = [
        3, 4, 4, 4, 4, 3, 3, 3, 3, 3,
        8, 5, 9, 5,
        6, 5, 9, 5,
        8, 5, 9, 5,
        6, 5, 9, 5,
        1, 1,
    ];

    // The index in each field, field 1 first.
    pub fn by_field(self) -> [u16; 28]
        ensures { result ≡ indices_of self }
    {
        let mut indices = [0u16; 28];
        let lsp = self.lsp;
        indices[..10].copy_from_slice(&lsp);
        let subframes = self.subframes;
        indices[10..26].copy_from_slice(&subframes);
        indices[26] = self.sp;
        indices[27] = self.sy;
        indices
    }

    // The lowest field whose index is too large for it.
    pub fn too_large(self) -> Option<usize>
        ensures { result ≡ field_named (too_large_field self) }
    {
        let indices = self.by_field();
        let widths = Self::WIDTHS;
        for i in 0..Self::FIELDS {
            if indices[i] >> widths[i] != 0 {
                return Some(i + 1);
            }
        }
        None
    }
}
