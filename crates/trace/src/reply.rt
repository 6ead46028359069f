// The answers that wait, and where they go.
ghost use Rattle.std.specs.Prelude.{◌≡◌, ◌+◌, ◌≤◌, length};
ghost use Rattle.text.specs.declared.TheConstants.{LINE};
ghost use Rattle.trace.specs.declared.reply.TheConstants.{WAITING_MAX};

use crate::bytes::Bytes;
use std::io;
use std::io::{Stdout, Write};
use text::LINE;

const WAITING_MAX: usize = 65_536;

// There is room for the longest answer, from one to the next.
#[derive(Drop)]
pub struct Reply {
    output: Stdout,
    waiting: Bytes<WAITING_MAX>,
    ghost room: { waiting.count + LINE ≤ WAITING_MAX },
}

impl Reply {
    pub fn new(output: Stdout) -> Reply {
        Reply {
            output,
            waiting: Bytes::new(),
        }
    }

    // Writes what waits.
    pub fn flush(&mut self) -> io::Result<()> {
        write(&mut self.output, &mut self.waiting)
    }

    // An answer waits. What waits is written first where there is no room for the longest.
    pub fn say(&mut self, text: &[u8]) -> io::Result<()>
        requires { length text.now ≤ LINE }
    {
        self.waiting.keep(text);
        if self.waiting.room() < LINE {
            return write(&mut self.output, &mut self.waiting);
        }
        Ok(())
    }
}

// Writes what waits, which then waits no more: where that fails, the program ends.
fn write(output: &mut Stdout, waiting: &mut Bytes<WAITING_MAX>) -> io::Result<()>
    ensures { waiting.new.count ≡ 0 }
{
    let written = output.write_all(waiting.as_slice());
    waiting.clear();
    written
}
