ghost use Rattle.std.specs.Prelude.{◌≡◌, [], ◌∷◌, ◌++◌};

use std::marker::Model;
use std::snapshot::Snapshot;

/// All items that were noted, the oldest first. Contracts see the list; no code holds it.
#[derive(Drop)]
pub struct History<T> {
    step: Option<(Snapshot<History<T>>, Snapshot<T>)>,
}

impl<T> Model for History<T> {
    ghost use Rattle.std.specs.Prelude.{List, length};
    ghost use Rattle.std.specs.Coded.{coded_list};
    ghost use Rattle.std.specs.Option.{option_map};
    ghost use Rattle.qm_base.specs.Histories.{noted};

    ghost Value = { List T };

    ghost coded = { coded_list T.code };

    ghost view = { λ h. noted (option_map (λ s. (s.0.value, s.1.value)) h.step) };

    ghost size = { length };
}

impl<T> History<T> {
    /// A history of nothing.
    pub fn new() -> History<T>
        ensures { result ≡ [] }
    {
        History { step: None }
    }

    /// Notes one more item. It costs nothing when it runs.
    pub fn note(&mut self, item: &T)
        ensures { self.new ≡ self.old ++ item.now ∷ [] }
    {
        let before = Snapshot::of(self);
        *self = History {
            step: Some((before, Snapshot::of(item))),
        };
    }
}
