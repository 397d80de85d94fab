ghost use Rattle.std.specs.Prelude.{◌≡◌, IsSome, IfOk, Some, None};
ghost use Rattle.qm_core.specs.Inputs.{IsCleanInput, document_of};

use crate::inputs::Input;
use qm_base::{NoMemory, Shared};
use qm_json::Json;
use std::alloc::Global;
use std::marker::Model;

/// The owners of one input, and one more of its value.
#[derive(Drop)]
pub(crate) struct Owners {
    pub(crate) kept: Input,
    pub(crate) waiting: Input,
    pub(crate) document: Option<Shared<Json>>,
}

/// An input to be admitted, with the owners of it that an admission gives: to the journal, to the
/// request that waits and to its call. They are made beforehand, so that neither an admission nor
/// a start takes memory.
#[derive(Drop)]
pub struct Offer {
    owners: Option<Owners>,
}

impl Model for Offer {
    ghost use Rattle.std.specs.Prelude.{◌≡◌, Option, IfSome};
    ghost use Rattle.std.specs.Option.{option_map};
    ghost use Rattle.qm_core.specs.Inputs.{IsCleanInput, document_of};
    ghost use Rattle.qm_core.specs.declared.inputs.Input.{Input};
    ghost use Rattle.std.specs.Coded.{coded_option};
    ghost use Rattle.qm_core.specs.contracts.inputs.Input as input;

    ghost Value = { Option Input };

    ghost coded = { coded_option input.the_row.coded };

    ghost view = { λ o. option_map (λ w. w.kept) o.owners };

    ghost invariant = { λ o. IfSome o.owners (λ w. (w.waiting ≡ w.kept) × (w.document ≡ document_of w.kept) × IsCleanInput w.kept) };
}

impl Offer {
    /// An offer of an input.
    pub fn of(_alloc: Global, input: Input) -> Result<Offer, NoMemory>
        requires { IsCleanInput input }
        ensures { IfOk result (λ offer. offer ≡ Some input) }
    {
        let owners = match input {
            Input::Doc(value) => Owners {
                waiting: Input::Doc(value.again()?),
                document: Some(value.again()?),
                kept: Input::Doc(value),
            },
            Input::Bad(bad) => Owners {
                kept: Input::Bad(bad),
                waiting: Input::Bad(bad),
                document: None,
            },
        };
        Ok(Offer {
            owners: Some(owners),
        })
    }

    /// The input, which no admission has spent.
    pub(crate) fn kept(&self) -> &Input
        requires { IsSome self.now }
        ensures { self.now ≡ Some result.now }
    {
        match &self.owners {
            Some(owners) => &owners.kept,
            None => unreachable!(),
        }
    }

    /// Moves the owners out.
    pub(crate) fn spend(&mut self) -> Owners
        requires { IsSome self.old }
        ensures kept { self.old ≡ Some result.kept }
        ensures waiting { result.waiting ≡ result.kept }
        ensures document { result.document ≡ document_of result.kept }
        ensures clean { IsCleanInput result.kept }
        ensures spent { self.new ≡ None }
    {
        match self.owners.take() {
            Some(owners) => owners,
            None => unreachable!(),
        }
    }
}
