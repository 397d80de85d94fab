ghost use Rattle.std.specs.Prelude.{◌≡◌};
ghost use Rattle.std.specs.Option.{option_copied, option_map};
ghost use Rattle.qapi_define.specs.Saying.{values_of, base_of, base_members_of, discriminator_of, members_of, data_of, has_variants, variants_of, returns_of, features_of};

use crate::definition::{Definition, EnumValue, Member, Part, Sort, TypeName, Variant};
use qm_base::Text;

impl Definition {
    /// The values of an enum; none where it says none.
    pub fn values(&self) -> &[EnumValue]
        ensures { result.now ≡ values_of self.now }
    {
        for part in self.parts.as_slice() {
            if let Part::Values(values) = part {
                return values.as_slice();
            }
        }
        &[]
    }

    /// The name of its base.
    pub fn base(&self) -> Option<&Text>
        ensures { option_copied result ≡ base_of self.now }
    {
        for part in self.parts.as_slice() {
            if let Part::Base(name) = part {
                return Some(name);
            }
        }
        None
    }

    /// The members of its base, where they are written out.
    pub fn base_members(&self) -> &[Member]
        ensures { result.now ≡ base_members_of self.now }
    {
        for part in self.parts.as_slice() {
            if let Part::BaseMembers(members) = part {
                return members.as_slice();
            }
        }
        &[]
    }

    /// The discriminator of a union.
    pub fn discriminator(&self) -> Option<&Text>
        ensures { option_copied result ≡ discriminator_of self.now }
    {
        for part in self.parts.as_slice() {
            if let Part::Discriminator(name) = part {
                return Some(name);
            }
        }
        None
    }

    /// Its own members, where they are written out.
    pub fn members(&self) -> Option<&[Member]>
        ensures { option_copied result ≡ members_of self.now }
    {
        for part in self.parts.as_slice() {
            if let Part::Members(members) = part {
                return Some(members.as_slice());
            }
        }
        None
    }

    /// The name of the type of what a command takes or an event has.
    pub fn data(&self) -> Option<&Text>
        ensures { option_copied result ≡ data_of self.now }
    {
        for part in self.parts.as_slice() {
            if let Part::Data(name) = part {
                return Some(name);
            }
        }
        None
    }

    /// Whether it is an alternate, or a union with a discriminator.
    fn has_variants(&self) -> bool
        ensures { result ≡ has_variants self.now }
    {
        match self.sort {
            Sort::Alternate => true,
            Sort::Union => self.discriminator().is_some(),
            _ => false,
        }
    }

    /// The branches of a union with a discriminator, or the alternatives of an alternate; nothing
    /// else has any.
    pub fn variants(&self) -> &[Variant]
        ensures { result.now ≡ variants_of self.now }
    {
        if !self.has_variants() {
            return &[];
        }
        for part in self.parts.as_slice() {
            if let Part::Variants(variants) = part {
                return variants.as_slice();
            }
        }
        &[]
    }

    /// What a command returns.
    pub fn returns(&self) -> Option<&TypeName>
        ensures { option_copied result ≡ returns_of self.now }
    {
        for part in self.parts.as_slice() {
            if let Part::Returns(of) = part {
                return Some(of);
            }
        }
        None
    }

    /// Its features.
    pub fn features(&self) -> &[Text]
        ensures { result.now ≡ features_of self.now }
    {
        for part in self.parts.as_slice() {
            if let Part::Features(features) = part {
                return features.as_slice();
            }
        }
        &[]
    }
}
