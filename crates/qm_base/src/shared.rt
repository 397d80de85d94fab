ghost use Rattle.std.specs.Prelude.{◌≡◌, IfOk};

use crate::text::NoMemory;
use std::alloc::Global;
use std::marker::Model;
use std::sync::Arc;

/// A value with several owners, which contracts see as the value alone.
#[derive(Drop)]
pub struct Shared<T> {
    inner: Arc<T, Global>,
}

impl<T> Model for Shared<T> {
    ghost use Rattle.std.specs.Arc.{arc_value};

    ghost Value = { T };

    ghost coded = { T.code };

    ghost view = { λ s. arc_value s.inner };
}

impl<T: Drop> Shared<T> {
    /// The first owner of a value.
    pub fn new(alloc: Global, value: T) -> Result<Shared<T>, NoMemory>
        ensures { IfOk result (λ shared. shared ≡ value) }
    {
        let inner = Arc::new(alloc, value)?;
        Ok(Shared { inner })
    }

    /// One more owner of the same value. The count of owners has an end, at which this is refused.
    pub fn again(&self) -> Result<Shared<T>, NoMemory>
        ensures { IfOk result (λ shared. shared ≡ self.now) }
    {
        match Arc::try_clone(&self.inner) {
            Ok(inner) => Ok(Shared { inner }),
            Err(_) => Err(NoMemory),
        }
    }

    /// The value.
    pub fn get(&self) -> &T
        ensures { result.now ≡ self.now }
    {
        &self.inner
    }
}
