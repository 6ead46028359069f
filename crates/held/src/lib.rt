// The record that the trace program holds: one of any manager, or none. Whose record it is decides whose call is made.
#![tactic(auto)]

ghost use Rattle.std.specs.Prelude.{◌≡◌};
ghost use Rattle.held.specs.State.{nothing, refused_call, kept};
ghost use Rattle.held.specs.Calls.{dry_run_held, book_held, queueing_held, enqueue_held, dequeue_held};
ghost use Rattle.legacy.specs.declared.Queue.{Queue as QueueRecord};
ghost use Rattle.legacy.specs.declared.Booked.{Booked as QueueBooked};

use legacy::{Booked, Queue};
use poly_seg::PolySeg;
use pseg::PrioritySeg;
use seg::FreeVolume;
use units::refusal::Refusal;
use units::{Bundle, Date, Offer, TxData};

#[derive(Clone, Copy)]
pub enum Held {
    Nothing,
    Free(FreeVolume),
    Priority(PrioritySeg),
    Polynomial(PolySeg),
    Queue(Queue),
}

// A call's answer: 01's number, and what is held after it. No Result: the definitions that docs/RULES.md names (`book_held`, `change_of`, `step_of`) answer the number and what is held after it, of a refusal too.
#[derive(Clone, Copy)]
pub struct Done {
    pub number: u8,
    pub held: Held,
}

impl Held {
    // What is held before the first opening.
    pub fn nothing() -> Held
        ensures { result ≡ nothing }
    {
        Held::Nothing
    }

    // A call that changes nothing.
    pub fn refused(self, number: u8) -> Done
        ensures { result ≡ refused_call self number }
    {
        Done { number, held: self }
    }

    // What a call that is done leaves is held from then on; a refused call changes nothing.
    #[tactic(auto, unfolding(crate::specs::State::kept))]
    pub fn kept(self, number: u8, next: Held) -> Done
        ensures { result ≡ kept self number next }
    {
        if number != 0 {
            return self.refused(number);
        }
        Done { number, held: next }
    }

    #[tactic(auto, unfolding(crate::specs::Calls::dry_run_held))]
    pub fn dry_run(self, at: Date, bundle: Bundle) -> Offer
        ensures { result ≡ dry_run_held self at bundle }
    {
        match self {
            Held::Nothing => Offer::refused(Refusal::Record.number()),
            Held::Free(r) => r.dry_run(at, bundle),
            Held::Priority(r) => r.dry_run(at, bundle),
            Held::Polynomial(r) => r.dry_run(at, bundle),
            Held::Queue(r) => r.dry_run(at, bundle),
        }
    }

    #[tactic(auto, unfolding(crate::specs::Calls::book_held))]
    pub fn book(self, at: Date, bundle: Bundle, dates: TxData) -> Done
        ensures { result ≡ book_held self at bundle dates }
    {
        match self {
            Held::Nothing => self.refused(Refusal::Record.number()),
            Held::Free(r) => {
                let b = r.book(at, bundle, dates);
                self.kept(b.number, Held::Free(b.manager))
            }
            Held::Priority(r) => {
                let b = r.book(at, bundle, dates);
                self.kept(b.number, Held::Priority(b.manager))
            }
            Held::Polynomial(r) => {
                let b = r.book(at, bundle, dates);
                self.kept(b.number, Held::Polynomial(b.manager))
            }
            Held::Queue(r) => {
                let b = r.book(at, bundle, dates);
                self.kept(b.number, Held::Queue(b.manager))
            }
        }
    }

    // A call that only the queue manager has.
    #[tactic(auto, unfolding(crate::specs::Calls::queueing_held))]
    fn queueing<F: FnOnce(Queue) -> Booked>(self, call: F) -> Done
        requires { F.IsAlwaysCallable call }
        ensures { (answer : QueueRecord → QueueBooked) → ((r : QueueRecord) (b : QueueBooked) → F.post call r b → b ≡ answer r)
            → result ≡ queueing_held answer self }
    {
        match self {
            Held::Nothing => self.refused(Refusal::Record.number()),
            Held::Queue(r) => {
                let b = call(r);
                self.kept(b.number, Held::Queue(b.manager))
            }
            Held::Free(_) | Held::Priority(_) | Held::Polynomial(_) => {
                self.refused(Refusal::SelfUpdate.number())
            }
        }
    }

    pub fn enqueue(self, bundle: Bundle) -> Done
        ensures { result ≡ enqueue_held self bundle }
    {
        self.queueing(|r| r.enqueue(bundle))
    }

    pub fn dequeue(self, bundle: Bundle) -> Done
        ensures { result ≡ dequeue_held self bundle }
    {
        self.queueing(|r| r.dequeue(bundle))
    }
}
