ghost use Rattle.std.specs.Prelude.{◌≡◌, ◌∷◌, [], take};

use arrayvec::ArrayVec;
use std::marker::Model;

/// A step of the way from a value to a fault in it.
#[derive(Clone, Copy, Debug, PartialEq, Eq)]
pub enum PathStep {
    /// To the object's member at this position, counted from 0.
    Member(u64),
    /// To the array's element at this position, counted from 0.
    Place(u64),
    /// To an absent member: the type of this number lists it at this position, counted from 0.
    Absent(u32, u32),
}

impl Default for PathStep {
    ghost use Rattle.qm_admit.specs.declared.path.PathStep.TheVariants.{Place};

    fn default() -> PathStep
        ensures { result ≡ Place 0 }
    {
        PathStep::Place(0)
    }
}

/// A way of at most 128 steps, which contracts see as their list. It takes no memory, and its
/// places are made with the first step, since most values have no fault.
#[derive(Debug, Drop)]
pub struct PathList {
    steps: Option<ArrayVec<PathStep, 128>>,
}

impl Model for PathList {
    ghost use Rattle.std.specs.Prelude.{List, []};
    ghost use Rattle.std.specs.Option.{option_map_or};
    ghost use Rattle.arrayvec.specs.ArrayVec.{ArrayVec as Steps};
    ghost use Rattle.qm_admit.specs.declared.path.PathStep.{PathStep};

    ghost Value = { List PathStep };

    ghost view = { λ p. option_map_or (λ (s : Steps PathStep). s.items) p.steps [] };
}

impl PathList {
    /// No steps.
    pub fn new() -> PathList
        ensures { result ≡ [] }
    {
        PathList { steps: None }
    }

    /// The steps, from the value on.
    pub fn as_slice(&self) -> &[PathStep]
        ensures { result.now ≡ self.now }
    {
        match &self.steps {
            None => &[],
            Some(steps) => steps.as_slice(),
        }
    }

    /// Puts a step before the others; of the whole the first 128 steps are kept.
    #[inline(never)]
    pub fn prepend(&mut self, step: PathStep)
        ensures { self.new ≡ take 128 (step ∷ self.old) }
    {
        let steps = self.steps.get_or_insert_with(ArrayVec::new);
        steps.truncate(127);
        steps.insert(0, step);
    }
}
