ghost use Rattle.std.specs.Prelude.{◌≡◌, IfOk};
ghost use Rattle.qm_throttle.specs.Endings.{opened_again};
ghost use Rattle.qm_throttle.specs.Steps.{keeping};

use crate::sent::Sent;
use qm_base::NoMemory;
use std::alloc::Global;

/// An open window, with the latest event that was raised in it.
#[derive(Debug, Drop)]
pub struct Window {
    /// How long it stays open at least, in microseconds.
    pub period: u64,
    /// When it ends: at the first tick at or past this moment, in microseconds.
    pub deadline: u128,
    /// The latest event that was raised in it.
    pub kept: Option<Sent>,
}

fn copy_kept(alloc: Global, kept: &Option<Sent>) -> Result<Option<Sent>, NoMemory>
    ensures { IfOk result (λ copied. copied ≡ kept.now) }
{
    match kept {
        Some(event) => {
            let event = event.copy(alloc)?;
            Ok(Some(event))
        }
        None => Ok(None),
    }
}

impl Window {
    /// An equal window.
    pub(crate) fn copy(&self, alloc: Global) -> Result<Window, NoMemory>
        ensures { IfOk result (λ window. window ≡ self.now) }
    {
        let kept = copy_kept(alloc, &self.kept)?;
        Ok(Window {
            period: self.period,
            deadline: self.deadline,
            kept,
        })
    }

    /// Keeps an event, in the place of the one before.
    pub(crate) fn keep(&mut self, event: Sent)
        ensures { self.new ≡ keeping event self.old }
    {
        self.kept = Some(event);
    }

    /// Opens it again at a moment, and gives the event that was kept in it.
    pub(crate) fn end(&mut self, moment: u64) -> Option<Sent>
        ensures sent { result ≡ self.old.kept }
        ensures window { self.new ≡ opened_again moment self.old }
    {
        self.deadline = moment as u128 + self.period as u128;
        self.kept.take()
    }
}
