// What the calls of a record answer, a line for each record.
use std::{fmt, io};
use units::{Bundle, Date, TxData};

// What a record's calls are asked: a dry run at a time, and the booking of the four dates that a record which keeps its rules offers.
#[derive(Clone, Copy)]
pub struct Asked {
    pub at: Date,
    pub bundle: Bundle,
    pub dates: TxData,
}

// Does the record keep its rules, and what are the numbers of its dry run, its booking and its list?
#[derive(Clone, Copy)]
pub struct Answers {
    pub good: bool,
    pub dry_run: u8,
    pub book: u8,
    pub list: u8,
}

impl fmt::Display for Answers {
    fn fmt<W: fmt::Write>(&self, f: &mut fmt::Formatter<W>) -> fmt::Result {
        let good = self.good as u8;
        write!(
            f,
            "{good} {:02} {:02} {:02}",
            self.dry_run, self.book, self.list
        )
    }
}

// A record of any manager. Its four impls have one text: the managers have no trait in common, as C has their calls by name.
pub trait Record: Copy {
    fn answers(self, asked: &Asked) -> Answers;
}

// The manager's letter and the record's, then the answers.
pub fn report<R: Record>(
    rt: &impl Print,
    manager: char,
    label: char,
    asked: &Asked,
    r: R,
) -> io::Result<()> {
    println!(rt; "{manager}{label} {}", r.answers(asked))
}
