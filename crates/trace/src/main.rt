// The trace program: reads frames from standard input, one a line, and writes an answer line for each. Bounded memory: of a line that is too long, only as much is kept as tells so.
#![tactic(auto)]

mod bytes;
mod keeper;
mod line;
mod reply;

ghost use Rattle.std.specs.Prelude.{◌≡◌, ◌≤◌, length, take};
ghost use Rattle.trace.specs.Counts.{IsPrefixLen};

use bytes::Bytes;
use keeper::Keeper;
use line::line_end;
use reply::Reply;
use std::io;
use std::io::{Read, Stdin};
use text::LINE;

// n, or the buffer's length where that is less. With its contract `&buf[..n]` needs no proof.
fn fit(n: usize, buf: &[u8]) -> usize
    ensures { IsPrefixLen result buf.now }
{
    n.min(buf.len())
}

// What is kept of a line: one digit more than the longest frame has.
const KEPT_MAX: usize = 2049;

// What is held, and the answers.
#[derive(Drop)]
struct Talk {
    keeper: Keeper,
    answer: [u8; LINE],
    reply: Reply,
}

impl Talk {
    // The answer to a line waits.
    fn answer(&mut self, line: &[u8]) -> io::Result<()> {
        let n = self.keeper.answer(&mut self.answer, line);
        let n = fit(n, &self.answer);
        self.reply.say(&self.answer[..n])
    }
}

// The program between two reads.
#[derive(Drop)]
struct Program {
    // An unfinished line, as far as it is kept, which goes from one read to the next: what `keep` has no room for, it leaves out, since the line is too long by then.
    rest: Bytes<KEPT_MAX>,
    talk: Talk,
}

impl Program {
    // The line that was kept is whole: it is answered.
    fn finish(&mut self) -> io::Result<()> {
        self.talk.answer(self.rest.as_slice())?;
        self.rest.clear();
        Ok(())
    }

    // The whole lines of a chunk are answered, and what is left is kept for the next.
    fn lines(&mut self, chunk: &[u8]) -> io::Result<()> {
        let mut left = chunk;
        // What stands after the last line end is no line yet, so no `split`.
        while let Some(end) = line_end(left) {
            self.talk.answer(&left[..end])?;
            left = &left[end + 1..];
        }
        self.rest.keep(left);
        Ok(())
    }

    // A chunk: the rest of a line that was kept belongs to it.
    fn take(&mut self, chunk: &[u8]) -> io::Result<()> {
        if self.rest.is_empty() {
            return self.lines(chunk);
        }
        let Some(end) = line_end(chunk) else {
            self.rest.keep(chunk);
            return Ok(());
        };
        self.rest.keep(&chunk[..end]);
        self.finish()?;
        self.lines(&chunk[end + 1..])
    }

    // All reads. The answers to one are written before the next, so that a partner who waits for them gets them. A read that fails is the input's end; its last line, which has no line end, is answered too.
    fn run(&mut self, input: &mut Stdin, chunk: &mut [u8]) -> io::Result<()> {
        let mut read = Ok(());
        // A proved loop has to end: no run uses this number up.
        for _ in 0..u64::MAX {
            let n = match input.read(chunk) {
                Ok(0) => break,
                Ok(n) => n,
                Err(e) => {
                    read = Err(e);
                    break;
                }
            };
            self.take(&chunk[..n])?;
            self.talk.reply.flush()?;
        }
        let written = self.end();
        read?;
        written
    }

    // The last line, if it has no line end.
    fn end(&mut self) -> io::Result<()> {
        if !self.rest.is_empty() {
            self.finish()?;
        }
        self.talk.reply.flush()
    }
}

fn main(rt: HostRuntime) -> io::Result<()> {
    let mut chunk = [0u8; 65_536];
    let mut program = Program {
        rest: Bytes::new(),
        talk: Talk {
            keeper: Keeper::new(),
            answer: [0u8; LINE],
            reply: Reply::new(rt.stdout()),
        },
    };
    program.run(&mut rt.stdin(), &mut chunk)
}
