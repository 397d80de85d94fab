ghost use Rattle.std.specs.Prelude.{◌≡◌, nat_le, true, false, cond, ◌||◌, IfOk, OnOk, OnErr};
ghost use Rattle.std.specs.BTreeMap.{is_at};
ghost use Rattle.std.specs.BTreeSet.{contains};
ghost use Rattle.qm_throttle.specs.Keys.{key_order};
ghost use Rattle.qm_throttle.specs.Deadlines.{due_order, has_due, is_listed, key_comes, SomeCome};
ghost use Rattle.qm_throttle.specs.declared.due.Due.{Due};
ghost use Rattle.qm_throttle.specs.Keys.{Key};

use crate::due::Due;
use crate::keys::WindowKey;
use qm_base::NoMemory;
use std::alloc::Global;
use std::collections::BTreeSet;

#[tactic(auto, using(crate::proofs::Dues::not_listed_before))]
fn put_each(alloc: Global, deadlines: &mut BTreeSet<Due>, nexts: &[Due]) -> Result<(), NoMemory>
    ensures ok { OnOk result ((due : Due) →
        has_due deadlines.new.keys due ≡ (is_listed nexts.now due || has_due deadlines.old.keys due)) }
    ensures others { (due : Due) → is_listed nexts.now due ≡ false →
        has_due deadlines.new.keys due ≡ has_due deadlines.old.keys due }
{
    for due in nexts {
        let due = due.copy(alloc)?;
        if let Err(_) = deadlines.insert(due) {
            return Err(NoMemory);
        }
    }
    Ok(())
}

fn take_each(deadlines: &mut BTreeSet<Due>, nexts: &[Due])
    ensures { (due : Due) →
        has_due deadlines.new.keys due ≡ cond (is_listed nexts.now due) false (has_due deadlines.old.keys due) }
{
    for due in nexts {
        let _ = deadlines.remove(due);
    }
}

/// Takes a deadline out.
pub(crate) fn take_one(deadlines: &mut BTreeSet<Due>, due: Due)
    ensures { (q : Due) →
        has_due deadlines.new.keys q ≡ cond (is_at (due_order due) q) false (has_due deadlines.old.keys q) }
{
    let _ = deadlines.remove(&due);
}

/// Puts deadlines in that are not there. An error leaves those that were there before.
pub(crate) fn put_all(
    alloc: Global,
    deadlines: &mut BTreeSet<Due>,
    nexts: &[Due],
) -> Result<(), NoMemory>
    requires { (due : Due) → is_listed nexts.now due ≡ true → has_due deadlines.old.keys due ≡ false }
    ensures ok { OnOk result ((due : Due) →
        has_due deadlines.new.keys due ≡ (is_listed nexts.now due || has_due deadlines.old.keys due)) }
    ensures err { OnErr result ((due : Due) →
        has_due deadlines.new.keys due ≡ has_due deadlines.old.keys due) }
{
    match put_each(alloc, deadlines, nexts) {
        Ok(()) => Ok(()),
        Err(error) => {
            take_each(deadlines, nexts);
            Err(error)
        }
    }
}

fn has_come(deadlines: &BTreeSet<Due>, moment: u64) -> bool
    ensures some { result ≡ true → SomeCome moment deadlines.now.keys }
    ensures none { result ≡ false → (due : Due) → nat_le due.deadline moment ≡ true →
        has_due deadlines.now.keys due ≡ false }
{
    match deadlines.first() {
        Some(due) => due.deadline <= moment as u128,
        None => false,
    }
}

/// Takes the deadlines out that come at or before the moment.
pub(crate) fn take_come(deadlines: &mut BTreeSet<Due>, moment: u64)
    ensures { (due : Due) →
        has_due deadlines.new.keys due ≡ cond (nat_le due.deadline moment) false (has_due deadlines.old.keys due) }
{
    while has_come(deadlines, moment) {
        let _ = deadlines.pop_first();
    }
}

/// The keys of the deadlines that come at or before the moment.
pub(crate) fn come_keys(
    alloc: Global,
    deadlines: &BTreeSet<Due>,
    moment: u64,
) -> Result<BTreeSet<WindowKey>, NoMemory>
    ensures { IfOk result (λ keys. (key : Key) →
        contains key_order keys key ≡ key_comes moment deadlines.now.keys key) }
{
    let mut keys = BTreeSet::new(alloc);
    for due in deadlines {
        if due.deadline > moment as u128 {
            return Ok(keys);
        }
        let key = due.key.copy(alloc)?;
        if let Err(_) = keys.insert(key) {
            return Err(NoMemory);
        }
    }
    Ok(keys)
}
