// A run of eight picks over one worker, which is busy for as long as each request says: with an owner for everything,
// and over memory for three answers at a time.
use crate::{Memory, Opening, memory, run, run_owned};
use balance_model::{Answer, CallError, CompleteError, Completion, Pick, Polled};
use cache_model::Entry;
use discover::{Discovered, ListFeed};
use docket::DocketRecord;
use load::PendingRequests;
use rng::HasherRng;
use service::{Endpoint, Poll};
use std::process::Abort;
use std::test::Fail;
use workers::Paced;

type Worker = PendingRequests<Paced>;

// The feed inserts the worker at the first poll, and is then at its end.
const INSERTED: u32 = 7;

const PICKS: [Pick<u64>; 8] = [
    Pick::Poll { at: 0 },
    Pick::Call { request: 5, at: 0 },
    Pick::Call { request: 5, at: 0 },
    Pick::Poll { at: 1 },
    Pick::Complete { ticket: 1, at: 5 },
    Pick::Complete { ticket: 1, at: 5 },
    Pick::Poll { at: 5 },
    Pick::Call { request: 4, at: 5 },
];

fn opening(
    changes: &[Discovered<u32, Worker, u32>],
) -> Opening<ListFeed<'_, u32, Worker, u32>, HasherRng> {
    Opening {
        feed: ListFeed::new(changes),
        words: HasherRng::new(),
        budget: 16,
        first_serial: 1,
        first_ticket: 1,
    }
}

// The first three answers: the worker is named and takes a request, and a second one comes too soon.
fn first_three(answers: &[Answer<u32, u64, u32>]) -> bool {
    matches!(
        answers,
        [
            Answer::Polled(Ok(Polled {
                worker: Poll::Ready(1),
                lost: 0
            })),
            Answer::Called(Ok((1, 5))),
            Answer::Called(Err(CallError::NotFresh))
        ]
    )
}

// The next three: the worker is busy, and a request is over once.
fn next_three(answers: &[Answer<u32, u64, u32>]) -> bool {
    matches!(
        answers,
        [
            Answer::Polled(Ok(Polled {
                worker: Poll::Pending,
                lost: 0
            })),
            Answer::Completed(Ok(Completion::Held)),
            Answer::Completed(Err(CompleteError::UnknownTicket))
        ]
    )
}

// The last two: the worker is named again and takes another request.
fn last_two(answers: &[Answer<u32, u64, u32>]) -> bool {
    matches!(
        answers,
        [
            Answer::Polled(Ok(Polled {
                worker: Poll::Ready(1),
                lost: 0
            })),
            Answer::Called(Ok((2, 9)))
        ]
    )
}

// At the close the worker is pending with one request out.
fn closes(
    rt: &impl Abort,
    ready: &[Entry<u32, Worker>],
    pending: &[Entry<u32, Worker>],
    records: &[DocketRecord],
) {
    assert!(rt; ready.is_empty());
    assert_eq!(rt; pending.len(), 1);
    assert_eq!(rt; pending.first().map(|entry| entry.key), Some(INSERTED));
    assert_eq!(rt;
        pending.first().map(|entry| entry.endpoint.count()),
        Some(1)
    );
    let out = DocketRecord {
        ticket: 2,
        serial: 1,
        sent: 5,
    };
    assert_eq!(rt; records, [out].as_slice());
}

#[test]
fn owned(rt: HostRuntime) -> Result<(), Fail> {
    let worker = PendingRequests::new(Paced::new());
    let changes = [Discovered::Insert(INSERTED, worker)];
    let mut memory = Memory::new(rt.alloc(), Entry::new(0, worker, 0), 4, 4)?;
    let owned = run_owned(
        rt.alloc(),
        memory.as_mut_slices(),
        opening(&changes),
        &PICKS,
    )?;
    let answers = owned.answers.as_slice();
    assert_eq!(rt; answers.len(), 8);
    assert!(rt; answers.get(..3).is_some_and(first_three));
    assert!(rt; answers.get(3..6).is_some_and(next_three));
    assert!(rt; answers.get(6..).is_some_and(last_two));
    closes(
        &rt,
        owned.ready.as_slice(),
        owned.pending.as_slice(),
        owned.records.as_slice(),
    );
    assert_eq!(rt; owned.resume, 0);
    assert_eq!(rt; owned.next_serial, 2);
    assert_eq!(rt; owned.next_ticket, 3);
    Ok(())
}

#[test]
fn three_answers_at_a_time(rt: HostRuntime) -> Result<(), Fail> {
    let worker = PendingRequests::new(Paced::new());
    let changes = [Discovered::Insert(INSERTED, worker)];
    let mut memory = Memory::new(rt.alloc(), Entry::new(0, worker, 0), 4, 4)?;
    let mut answers = memory::answers(rt.alloc(), 3)?;
    let closing = run(
        memory.as_mut_slices(),
        opening(&changes),
        &PICKS,
        answers.as_mut_slice(),
    );
    assert_eq!(rt; closing.count, 3);
    assert!(rt; first_three(answers.as_slice()));
    let mut router = closing.router;
    assert_eq!(rt; router.apply_all(&PICKS[3..], answers.as_mut_slice()), 3);
    assert!(rt; next_three(answers.as_slice()));
    assert_eq!(rt; router.apply_all(&PICKS[6..], answers.as_mut_slice()), 2);
    assert!(rt; answers.as_slice().get(..2).is_some_and(last_two));
    // the place that is not written has its old answer
    assert!(rt;
        matches!(
            answers.get(2),
            Some(Answer::Completed(Err(CompleteError::UnknownTicket)))
        )
    );
    closes(
        &rt,
        router.cache.iter_ready().as_slice(),
        router.cache.iter_pending().as_slice(),
        router.docket.iter().as_slice(),
    );
    Ok(())
}
