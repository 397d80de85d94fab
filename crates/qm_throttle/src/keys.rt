ghost use Rattle.std.specs.Prelude.{◌≡◌, ◌++◌, Some, refl, IfOk, OnOk, map};
ghost use Rattle.std.specs.Cmp;
ghost use Rattle.std.specs.Cmp.{eq_by_cmp_equiv, partial_order_from_agreeing_total};
ghost use Rattle.std.specs.Ordering.{eq_by_cmp};
ghost use Rattle.qm_json.specs.Printing.{placed, joined};
ghost use Rattle.qm_throttle.specs.Keys.{key_order, key_total, key_by, printed_key, value_text};

use qm_base::{NoMemory, Text};
use qm_json::Json;
use qm_plan::Period;
use smallvec::SmallVec;
use std::alloc::Global;
use std::cmp::Ordering;
use std::marker::Model;

/// What windows are told apart by: the event's name, and the printed values of its key members.
/// Both stand in one text, and a short one in the key itself, so that it takes no look elsewhere to
/// compare it.
#[derive(Drop)]
pub(crate) struct WindowKey {
    bytes: SmallVec<u8, 24>,
    name_len: usize,
}

impl Model for WindowKey {
    ghost use Rattle.std.specs.Prelude.{◌≤◌, length, take, drop};
    ghost use Rattle.qm_throttle.specs.Keys.{Key, key_code};

    ghost Value = { Key };

    ghost coded = { key_code };

    ghost view = { λ k. record { name = take k.name_len k.bytes.items; printed = drop k.name_len k.bytes.items } };

    ghost invariant = { λ k. k.name_len ≤ length k.bytes.items };
}

/// These bytes, in place where they are few.
fn held(alloc: Global, bytes: &[u8]) -> Result<SmallVec<u8, 24>, NoMemory>
    ensures { IfOk result (λ held. held.items ≡ bytes.now) }
{
    match SmallVec::from_slice(alloc, bytes) {
        Ok(held) => Ok(held),
        Err(_) => Err(NoMemory),
    }
}

impl WindowKey {
    fn name(&self) -> &[u8]
        ensures { result.now ≡ self.now.name }
    {
        &self.bytes.as_slice()[..self.name_len]
    }

    fn printed(&self) -> &[u8]
        ensures { result.now ≡ self.now.printed }
    {
        &self.bytes.as_slice()[self.name_len..]
    }

    /// An equal key.
    pub(crate) fn copy(&self, alloc: Global) -> Result<WindowKey, NoMemory>
        ensures { IfOk result (λ copied. copied ≡ self.now) }
    {
        let bytes = held(alloc, self.bytes.as_slice())?;
        Ok(WindowKey {
            bytes,
            name_len: self.name_len,
        })
    }

    /// The key of an event of this period with this payload.
    pub(crate) fn of(alloc: Global, period: &Period, payload: &Json) -> Result<WindowKey, NoMemory>
        ensures { IfOk result (λ key. key ≡ key_by (Some period.now) payload.now) }
    {
        let mut text = period.name.copy(alloc)?;
        let name_len = text.len();
        write_key(period.key.as_slice(), payload, &mut text)?;
        let bytes = held(alloc, text.as_slice())?;
        Ok(WindowKey { bytes, name_len })
    }
}

impl PartialEq for WindowKey {
    ghost eq = { eq_by_cmp key_order };

    ghost laws = { Cmp.partial_equiv_from_equiv (eq_by_cmp_equiv key_total) };

    fn eq(&self, other: &WindowKey) -> bool {
        match self.cmp(other) {
            Ordering::Less => false,
            Ordering::Equal => true,
            Ordering::Greater => false,
        }
    }
}

impl Eq for WindowKey {
    ghost laws = { eq_by_cmp_equiv key_total };
}

impl PartialOrd for WindowKey {
    ghost partial_cmp = { λ x y. Some (key_order x y) };

    ghost laws = { partial_order_from_agreeing_total key_order key_total (λ x y. refl) (λ x y. refl) };

    fn partial_cmp(&self, other: &WindowKey) -> Option<Ordering> {
        Some(self.cmp(other))
    }
}

impl Ord for WindowKey {
    ghost cmp = { key_order };

    ghost total = { key_total };

    ghost matches_partial_cmp = { λ x y. refl };

    ghost matches_eq = { λ x y. refl };

    fn cmp(&self, other: &WindowKey) -> Ordering {
        match self.name().cmp(other.name()) {
            Ordering::Less => Ordering::Less,
            Ordering::Equal => self.printed().cmp(other.printed()),
            Ordering::Greater => Ordering::Greater,
        }
    }
}

fn write_value(payload: &Json, name: &Text, out: &mut Text) -> Result<(), NoMemory>
    ensures { OnOk result (out.new ≡ out.old ++ value_text payload.now name.now) }
{
    match payload.member(name.as_slice()) {
        Some(value) => value.write_text(out),
        None => out.extend(b"null"),
    }
}

fn write_next(later: bool, payload: &Json, name: &Text, out: &mut Text) -> Result<(), NoMemory>
    ensures { OnOk result (out.new ≡ out.old ++ placed later (value_text payload.now name.now)) }
{
    if later {
        out.extend(b", ")?;
    }
    write_value(payload, name, out)
}

fn write_values(payload: &Json, names: &[Text], out: &mut Text) -> Result<(), NoMemory>
    ensures { OnOk result (out.new ≡ out.old ++ joined (map (value_text payload.now) names.now)) }
{
    for (i, name) in names.iter().enumerate() {
        write_next(i > 0, payload, name, out)?;
    }
    Ok(())
}

fn write_key(names: &[Text], payload: &Json, out: &mut Text) -> Result<(), NoMemory>
    ensures { OnOk result (out.new ≡ out.old ++ printed_key names.now payload.now) }
{
    out.push(b'[')?;
    write_values(payload, names, out)?;
    out.push(b']')
}
