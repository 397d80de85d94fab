//! The turns of sessions, as the list tells them and as the queue does, and a ring.

use qm_queue::{Ring, TurnItem, TurnList, TurnQueue, next_turn};
use std::alloc::Global;
use std::test::Fail;

// Each row is the sessions that wait, ` | ` and the session that has the turn. A session has the
// number of its last start after `@`, if it was started.

/// Session 1 was started by entry 3 and session 2 by entry 7. Three requests of the one wait and two
/// of the other; they are started by the entries 14, 16, 18, 20 and 22.
const BETWEEN_SESSIONS: &str = "\
1@3 2@7 | 1
1@14 2@7 | 2
1@14 2@16 | 1
1@18 2@16 | 2
1@18 | 1
 | none
";

/// A session that was never started comes before all that were; ties go to the lower number.
const NEVER_STARTED: &str = "\
1@1 2 | 2
3 2 1@1 | 2
5@9 4@9 6@9 | 4
";

fn session(word: &str) -> Result<TurnItem, Fail> {
    let (session, last_start) = match word.split_once("@") {
        Some((session, start)) => (session, Some(start.parse::<u64>()?)),
        None => (word, None),
    };
    Ok(TurnItem {
        session: session.parse::<u32>()?,
        last_start,
    })
}

fn sessions(alloc: Global, words: &str) -> Result<TurnList, Fail> {
    let mut items = TurnList::new(alloc);
    for word in words.split_whitespace() {
        items.push(session(word)?)?;
    }
    Ok(items)
}

fn put(queue: &mut TurnQueue, item: TurnItem) -> Result<(), Fail> {
    if 0 < item.session && item.session as usize <= queue.as_slice().len() {
        queue.put(item);
        Ok(())
    } else {
        Err(Fail::from("no such session"))
    }
}

fn opened(alloc: Global, count: u32) -> Result<TurnQueue, Fail> {
    let mut queue = TurnQueue::new(alloc);
    for _ in 0..count {
        queue.open()?;
    }
    Ok(queue)
}

fn told_by_queue(alloc: Global, items: &TurnList) -> Result<Option<u32>, Fail> {
    let mut queue = opened(alloc, 6)?;
    for item in items.as_slice() {
        put(&mut queue, *item)?;
    }
    Ok(queue.next())
}

fn turn(alloc: Global, session: Option<u32>) -> Result<String, Fail> {
    match session {
        Some(session) => Ok(format!(in alloc; "{session}")?),
        None => Ok("none".to_string(alloc)?),
    }
}

fn is_told(alloc: Global, row: &str) -> Result<bool, Fail> {
    let (words, wanted) = row.split_once(" | ").unwrap_or((row, ""));
    let items = sessions(alloc, words)?;
    let by_list = turn(alloc, next_turn(&items))?;
    let by_queue = turn(alloc, told_by_queue(alloc, &items)?)?;
    Ok(by_list.as_str() == wanted && by_queue.as_str() == wanted)
}

fn all_are_told(alloc: Global, rows: &str) -> Result<bool, Fail> {
    for row in rows.lines() {
        if !is_told(alloc, row)? {
            return Ok(false);
        }
    }
    Ok(true)
}

#[test]
fn turns_between_sessions(rt: HostRuntime) -> Result<(), Fail> {
    assert!(rt; all_are_told(rt.alloc(), BETWEEN_SESSIONS)?);
    assert!(rt; all_are_told(rt.alloc(), NEVER_STARTED)?);
    assert!(rt; !all_are_told(rt.alloc(), "1 | 2\n")?);
    Ok(())
}

/// The session that has the turn, which then waits again, if it was started last by an entry.
fn take(queue: &mut TurnQueue, again: Option<u64>) -> Result<Option<u32>, Fail> {
    let taken = queue.take();
    if let Some(session) = taken {
        if again.is_some() {
            put(
                queue,
                TurnItem {
                    session,
                    last_start: again,
                },
            )?;
        }
    }
    Ok(taken)
}

fn remove(queue: &mut TurnQueue, session: u32) -> Result<(), Fail> {
    if 0 < session && session as usize <= queue.as_slice().len() {
        queue.remove(session);
        Ok(())
    } else {
        Err(Fail::from("no such session"))
    }
}

/// Three sessions that were never started.
fn three(alloc: Global) -> Result<TurnQueue, Fail> {
    let mut queue = opened(alloc, 3)?;
    for item in sessions(alloc, "1 2 3")?.as_slice() {
        put(&mut queue, *item)?;
    }
    Ok(queue)
}

/// Sessions 1 and 2 have one more request each, and session 3 is closed.
#[test]
fn one_turn_after_the_other(rt: HostRuntime) -> Result<(), Fail> {
    let mut queue = three(rt.alloc())?;
    assert_eq!(rt; take(&mut queue, Some(10))?, Some(1));
    assert_eq!(rt; take(&mut queue, Some(11))?, Some(2));
    remove(&mut queue, 3)?;
    assert_eq!(rt; take(&mut queue, None)?, Some(1));
    assert_eq!(rt; take(&mut queue, None)?, Some(2));
    assert_eq!(rt; take(&mut queue, None)?, None);
    Ok(())
}

fn put_number(ring: &mut Ring, number: u64) -> Result<(), Fail> {
    if ring.len() < 8 {
        ring.put(number);
        Ok(())
    } else {
        Err(Fail::from("no place"))
    }
}

#[test]
fn a_ring_gives_the_oldest_first(rt: HostRuntime) -> Result<(), Fail> {
    let mut ring = Ring::new(rt.alloc())?;
    for number in 1..9 {
        put_number(&mut ring, number)?;
    }
    assert_eq!(rt; ring.len(), 8);
    for number in 1..9 {
        assert_eq!(rt; ring.take(), Some(number));
    }
    assert_eq!(rt; ring.take(), None);
    Ok(())
}
