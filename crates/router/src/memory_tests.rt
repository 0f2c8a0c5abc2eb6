// Memory is made where there is enough of it, and is lent.
use crate::Memory;
use crate::memory::answers;
use balance_model::{Answer, CompleteError};
use cache_model::Entry;
use docket::DocketRecord;
use std::test::Fail;

fn is_blank(entry: &Entry<i32, char>) -> bool {
    entry.serial == 0 && entry.key == 7 && entry.endpoint == 'w' && !entry.cancelled
}

#[test]
fn as_long_as_asked_for(rt: HostRuntime) -> Result<(), Fail> {
    let memory = Memory::new(rt.alloc(), Entry::new(7, 'w', 0), 3, 5)?;
    assert_eq!(rt; memory.ready.len(), 3);
    assert_eq!(rt; memory.pending.len(), 3);
    assert_eq!(rt; memory.records.len(), 5);
    assert!(rt; memory.ready.iter().all(is_blank));
    assert!(rt; memory.pending.iter().all(is_blank));
    Ok(())
}

#[test]
fn none_at_all(rt: HostRuntime) -> Result<(), Fail> {
    let memory = Memory::new(rt.alloc(), Entry::new(7, 'w', 0), 0, 0)?;
    assert!(rt; memory.ready.is_empty() && memory.pending.is_empty() && memory.records.is_empty());
    Ok(())
}

#[test]
fn written_through_its_slices(rt: HostRuntime) -> Result<(), Fail> {
    let mut memory = Memory::new(rt.alloc(), Entry::new(7, 'w', 0), 3, 5)?;
    let slices = memory.as_mut_slices();
    if let Some(entry) = slices.ready.first_mut() {
        entry.serial = 1;
    }
    if let Some(entry) = slices.pending.first_mut() {
        entry.serial = 2;
    }
    if let Some(record) = slices.records.first_mut() {
        record.ticket = 3;
    }
    assert_eq!(rt; memory.ready.first().map(|entry| entry.serial), Some(1));
    assert_eq!(rt; memory.pending.first().map(|entry| entry.serial), Some(2));
    let record = DocketRecord {
        ticket: 3,
        ..DocketRecord::default()
    };
    assert_eq!(rt; memory.records.first(), Some(&record));
    Ok(())
}

#[test]
fn answers_of_four_picks(rt: HostRuntime) -> Result<(), Fail> {
    let answers: Vec<Answer<i32, u64, u32>> = answers(rt.alloc(), 4)?;
    assert_eq!(rt; answers.len(), 4);
    let unknown = |answer: &Answer<i32, u64, u32>| {
        matches!(answer, Answer::Completed(Err(CompleteError::UnknownTicket)))
    };
    assert!(rt; answers.iter().all(unknown));
    Ok(())
}
