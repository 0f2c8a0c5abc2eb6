// What a worker did in a week, counted.
use crate::ticket::Ticket;
use balance_model::Completion;
use std::fmt;

/// How many requests a worker was sent, and what became of them.
///
/// It prints as the four numbers of a row.
#[derive(Clone, Copy, Default)]
pub struct Tally {
    /// Sent to it: all of the others together.
    pub sent: u32,
    /// Completed while it was held.
    pub completed: u32,
    /// Still out at the week's end.
    pub out: u32,
    /// Over when it was gone.
    pub lost: u32,
}

impl Tally {
    /// The tally of the worker with this serial.
    pub fn of(tickets: &[Ticket], serial: u64) -> Tally {
        tickets.iter().filter(|ticket| ticket.serial == serial).fold(
            Tally::default(),
            |tally, ticket| tally.and(ticket.completion),
        )
    }

    // The tally with one more request, whose completion found this.
    fn and(self, completion: Option<Completion>) -> Tally {
        let mut tally = self;
        tally.sent = tally.sent.saturating_add(1);
        match completion {
            None => tally.out = tally.out.saturating_add(1),
            Some(Completion::Held) => tally.completed = tally.completed.saturating_add(1),
            Some(Completion::Gone) => tally.lost = tally.lost.saturating_add(1),
        }
        tally
    }
}

impl fmt::Display for Tally {
    fn fmt<W: fmt::Write>(&self, f: &mut fmt::Formatter<W>) -> fmt::Result {
        let sent = self.sent;
        let completed = self.completed;
        let out = self.out;
        let lost = self.lost;
        write!(f, "{sent:>4} {completed:>9} {out:>9} {lost:>4}")
    }
}
