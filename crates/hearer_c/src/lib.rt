// The archive's part of `hearer`: hearing a record, and the places of voice blocks, under the names that include/oatlantern.h declares.
// Each function only calls the one of its name there.
#![tactic(auto)]

ghost use Rattle.std.specs.Prelude.{◌≡◌, [], ◌∷◌};
ghost use Rattle.blocks.specs.Frames.{span_of};
ghost use Rattle.hearer.specs.Hearing.{sync_of, hz_of, values_in, refusal_in, hear_result, if_heard, if_kept};

// Hears a record after a state: its order mark, with the values and the state after it; or minus a refusal, which leaves all but the
// state after 6.
#[unsafe(no_mangle)]
pub extern "C" fn oatlantern_hear_record(
    record: &[u8],
    sync: &mut [u16; 3],
    hz: &mut [u16; 10],
    cg: &mut [i32; 4],
    pg: &mut [i32; 4],
    delays: &mut [u16; 4],
    averages: &mut [u32; 40],
) -> i32
    ensures value { result ≡ hear_result (refusal_in «record».now sync.old hz.old) (values_in «record».now sync.old hz.old) }
    ensures sync_after { sync.new ≡ if_kept (refusal_in «record».now sync.old hz.old) (sync_of (values_in «record».now sync.old hz.old).state) sync.old }
    ensures hz_after { hz.new ≡ if_kept (refusal_in «record».now sync.old hz.old) (hz_of (values_in «record».now sync.old hz.old).state hz.old) hz.old }
    ensures cg_after { cg.new ≡ if_heard (refusal_in «record».now sync.old hz.old) (values_in «record».now sync.old hz.old).cg cg.old }
    ensures pg_after { pg.new ≡ if_heard (refusal_in «record».now sync.old hz.old) (values_in «record».now sync.old hz.old).pg pg.old }
    ensures delays_after { delays.new ≡ if_heard (refusal_in «record».now sync.old hz.old) (values_in «record».now sync.old hz.old).delays delays.old }
    ensures averages_after { averages.new ≡ if_heard (refusal_in «record».now sync.old hz.old) (values_in «record».now sync.old hz.old).averages averages.old }
{
    hearer::oatlantern_hear_record(record, sync, hz, cg, pg, delays, averages)
}

// Where voice block k of a recording stands: its first byte and the one after its last, or 0 and 0.
#[unsafe(no_mangle)]
pub extern "C" fn oatlantern_voice_block(recording: &[u8], k: usize, span: &mut [usize; 2])
    ensures { span.new ≡ (span_of recording.now k).from ∷ (span_of recording.now k).to ∷ [] }
{
    hearer::oatlantern_voice_block(recording, k, span)
}
