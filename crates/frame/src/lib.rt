// A frame: the table of 3.8.2, what is read in a frame, and why a record is not written.
// `reader` and `packer` follow the table one place at a time. Between the bytes and the record the indices stand in one list by
// field number, the four parity bits HP-0 to HP-3 under 0.
#![tactic(auto)]

ghost use Rattle.std.specs.Prelude.{◌≡◌};
ghost use Rattle.frame.specs.Answers.{not_read};
ghost use Rattle.frame.specs.Steps.{entries};

use record::Record;

// What correction did in a frame: nothing; a parity bit was hit, with its correction number, and no index changed; a data bit was
// inverted, with its field and its bit there. `parity` has the number of each case.
#[derive(Clone, Copy)]
pub enum Correction {
    Clean,
    Parity(usize),
    Data(usize, usize),
}

// What is read in a frame: the record after correction, what correction did, and the order mark.
#[derive(Clone, Copy)]
pub struct Reading {
    pub indices: Record,
    pub correction: Correction,
    pub mark: usize,
}

impl Reading {
    // What there is where no frame was read: all 0, and clean.
    pub fn nothing() -> Reading
        ensures { result ≡ not_read }
    {
        Reading {
            indices: Record {
                lsp: [0; 10],
                subframes: [0; 16],
                sp: 0,
                sy: 0,
            },
            correction: Correction::Clean,
            mark: 0,
        }
    }
}

// Why a record is not written, with what the refusal tells: the lent buffer is not eighteen bytes; the field whose index is too large;
// the number after which the parameters fall; SP is set.
#[derive(Clone, Copy, Debug, PartialEq, Eq)]
pub enum Refusal {
    WrongLength,
    TooLarge(usize),
    Falling(usize),
    Expansion,
}

// The table of 3.8.2, place 1 first: the field in the upper digits, the bit in the last.
#[rattlefmt::skip]
const TABLE: [u16; 144] = [
    0x184, 0x134, 0x011, 0x124, 0x153, 0x0d8, //   1 to 6: PG(4)-4, PD(3)-4, LSP 1-1, CG(2)-4, CI(3)-3, CI(1)-8
    0x170, 0x080, 0x103, 0x160, 0x0b5, 0x033, //   7 to 12: PD(4)-0, LSP 8-0, PG(2)-3, CG(3)-0, PD(1)-5, LSP 3-3
    0x113, 0x194, 0x0f1, 0x0a0, 0x0c3, 0x1a0, //  13 to 18: CI(2)-3, CI(4)-4, PD(2)-1, LSP 10-0, PG(1)-3, CG(4)-0
    0x052, 0x130, 0x000, 0x0d1, 0x198, 0x022, //  19 to 24: LSP 5-2, PD(3)-0, HP-0, CI(1)-1, CI(4)-8, LSP 2-2
    0x141, 0x175, 0x0e3, 0x155, 0x070, 0x111, //  25 to 30: PG(3)-1, PD(4)-5, CG(1)-3, CI(3)-5, LSP 7-0, CI(2)-1
    0x137, 0x0d0, 0x180, 0x043, 0x161, 0x0d5, //  31 to 36: PD(3)-7, CI(1)-0, PG(4)-0, LSP 4-3, CG(3)-1, CI(1)-5
    0x0f0, 0x191, 0x090, 0x158, 0x0c4, 0x122, //  37 to 42: PD(2)-0, CI(4)-1, LSP 9-0, CI(3)-8, PG(1)-4, CG(2)-2
    0x0b3, 0x061, 0x154, 0x112, 0x0e4, 0x0f3, //  43 to 48: PD(1)-3, LSP 6-1, CI(3)-4, CI(2)-2, CG(1)-4, PD(2)-3
    0x012, 0x142, 0x001, 0x131, 0x1a3, 0x081, //  49 to 54: LSP 1-2, PG(3)-2, HP-1, PD(3)-1, CG(4)-3, LSP 8-1
    0x140, 0x118, 0x171, 0x190, 0x032, 0x100, //  55 to 60: PG(3)-0, CI(2)-8, PD(4)-1, CI(4)-0, LSP 3-2, PG(2)-0
    0x0b6, 0x120, 0x156, 0x0a1, 0x0c1, 0x197, //  61 to 66: PD(1)-6, CG(2)-0, CI(3)-6, LSP 10-1, PG(1)-1, CI(4)-7
    0x133, 0x0e2, 0x053, 0x0d6, 0x020, 0x144, //  67 to 72: PD(3)-3, CG(1)-2, LSP 5-3, CI(1)-6, LSP 2-0, PG(3)-4
    0x0b4, 0x162, 0x071, 0x117, 0x150, 0x0f5, //  73 to 78: PD(1)-4, CG(3)-2, LSP 7-1, CI(2)-7, CI(3)-0, PD(2)-5
    0x041, 0x0e0, 0x183, 0x091, 0x136, 0x0d4, //  79 to 84: LSP 4-1, CG(1)-0, PG(4)-3, LSP 9-1, PD(3)-6, CI(1)-4
    0x121, 0x062, 0x193, 0x102, 0x173, 0x010, //  85 to 90: CG(2)-1, LSP 6-2, CI(4)-3, PG(2)-2, PD(4)-3, LSP 1-0
    0x1a2, 0x082, 0x114, 0x002, 0x0f2, 0x030, //  91 to 96: CG(4)-2, LSP 8-2, CI(2)-4, HP-2, PD(2)-2, LSP 3-0
    0x0c2, 0x164, 0x0a2, 0x195, 0x110, 0x0b2, //  97 to 102: PG(1)-2, CG(3)-4, LSP 10-2, CI(4)-5, CI(2)-0, PD(1)-2
    0x051, 0x1b0, 0x182, 0x123, 0x021, 0x174, // 103 to 108: LSP 5-1, SP, PG(4)-2, CG(2)-3, LSP 2-1, PD(4)-4
    0x0d2, 0x101, 0x157, 0x040, 0x115, 0x0b7, // 109 to 114: CI(1)-2, PG(2)-1, CI(3)-7, LSP 4-0, CI(2)-5, PD(1)-7
    0x0c0, 0x1a4, 0x050, 0x172, 0x0d3, 0x151, // 115 to 120: PG(1)-0, CG(4)-4, LSP 5-0, PD(4)-2, CI(1)-3, CI(3)-1
    0x072, 0x192, 0x0b1, 0x104, 0x163, 0x031, // 121 to 126: LSP 7-2, CI(4)-2, PD(1)-1, PG(2)-4, CG(3)-3, LSP 3-1
    0x0d7, 0x132, 0x116, 0x092, 0x181, 0x0e1, // 127 to 132: CI(1)-7, PD(3)-2, CI(2)-6, LSP 9-2, PG(4)-1, CG(1)-1
    0x0f4, 0x003, 0x060, 0x143, 0x196, 0x0b0, // 133 to 138: PD(2)-4, HP-3, LSP 6-0, PG(3)-3, CI(4)-6, PD(1)-0
    0x023, 0x1a1, 0x152, 0x042, 0x135, 0x1c0, // 139 to 144: LSP 2-3, CG(4)-1, CI(3)-2, LSP 4-2, PD(3)-5, SY
];

// The table, as the definitions have it.
pub fn table() -> [u16; 144]
    ensures { result ≡ entries }
{
    TABLE
}
