use qm_base::NoMemory;
use qm_queue::{TurnItem, TurnQueue};
use std::alloc::Global;

/// So many sessions, which all wait.
fn waiting(alloc: Global, sessions: u16) -> Result<TurnQueue, NoMemory> {
    let mut queue = TurnQueue::new(alloc);
    for opened in 0..sessions as u32 {
        queue.open()?;
        queue.put(TurnItem {
            session: opened + 1,
            last_start: None,
        });
    }
    Ok(queue)
}

/// Gives each of so many sessions its turn, one after the other: a turn is taken from the queue, and
/// its session waits again. The sum of the sessions' numbers.
pub fn run(alloc: Global, sessions: u16, turns: u64) -> Result<u64, NoMemory> {
    let mut queue = waiting(alloc, sessions)?;
    let mut sum = 0u64;
    for turn in 0..turns {
        let Some(session) = queue.take() else {
            break;
        };
        sum = sum.wrapping_add(session as u64);
        queue.put(TurnItem {
            session,
            last_start: Some(turn),
        });
    }
    Ok(sum)
}
