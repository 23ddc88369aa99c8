// The archive's part of `gateway`: the frame reader and the frame writer under the names that include/oatlantern.h declares.
// Each function only calls the one of its name there.
#![tactic(auto)]

ghost use Rattle.std.specs.Prelude.{◌≡◌, length};
ghost use Rattle.gateway.specs.Results.{read_result, record_left, write_result, frame_left_by};

// Reads a frame into a record: 16 times the order mark plus the correction number, and 256 more for a parity hit, 512 for a data hit;
// or a refusal.
#[unsafe(no_mangle)]
pub extern "C" fn oatlantern_read_frame(frame: &[u8], out: &mut [u8]) -> i32
    ensures value { result ≡ read_result frame.now (length out.old) }
    ensures out_after { out.new ≡ record_left frame.now out.old }
{
    gateway::oatlantern_read_frame(frame, out)
}

// Writes a record's frame: 0, or a refusal.
#[unsafe(no_mangle)]
pub extern "C" fn oatlantern_write_frame(record: &[u8], frame: &mut [u8]) -> i32
    ensures value { result ≡ write_result «record».now (length frame.old) }
    ensures frame_after { frame.new ≡ frame_left_by «record».now frame.old }
{
    gateway::oatlantern_write_frame(record, frame)
}
