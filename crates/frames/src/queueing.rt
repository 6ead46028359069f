// Frames 13 and 14 on the queue manager's record that keeps its rules.
ghost use Rattle.std.specs.Prelude.{◌≡◌, true};
ghost use Rattle.legacy.specs.Record.{record_ok};
ghost use Rattle.frames.specs.Granted.{queueing_of};

use legacy::{Booked, Queue};

pub fn call(line: &[u8], r: Queue) -> Booked
    requires { record_ok r ≡ true }
    ensures { result ≡ queueing_of line.now r }
{
    let bundle = layout::bundle_at(line, 1);
    if hexadecimal::byte_at(line, 0) == 19 {
        return r.enqueue_kept(bundle);
    }
    r.dequeue_kept(bundle)
}
