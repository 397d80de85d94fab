ghost use Rattle.std.specs.Prelude.{◌≡◌, [], ◌∷◌, codes, length, map, IfOk, OnOk};

use qm_base::{NoMemory, Text};
use qm_json::{Json, Member};
use qm_plan::{Names, Period, PeriodList, Raised};
use qm_throttle::Throttle;
use sqlite_items::Items;
use std::alloc::Global;

/// One event, whose windows last for so many microseconds, told apart by the port.
fn periods(alloc: Global, micros: u64) -> Result<PeriodList, NoMemory>
    ensures { IfOk result (λ periods. map (λ p. p.name) periods ≡ codes "NOTE" ∷ []) }
{
    let mut key = Names::new(alloc);
    key.push(Text::of(alloc, b"port")?)?;
    let name = Text::of(alloc, b"NOTE")?;
    let mut periods = PeriodList::new(alloc);
    periods.push(Period { name, micros, key })?;
    Ok(periods)
}

fn payload(alloc: Global, port: u64) -> Result<Json, NoMemory> {
    let mut members = Items::new(alloc);
    let name = Text::of(alloc, b"port")?;
    let value = Json::Int(port as i128);
    match members.push(Member { name, value }) {
        Ok(()) => Ok(Json::Obj(members)),
        Err(_) => Err(NoMemory),
    }
}

/// Raises the event of a port. How many events are sent.
fn raise(alloc: Global, throttle: &mut Throttle, port: u64, moment: u64) -> Result<u64, NoMemory>
    requires { length throttle.old.periods ≡ 1 }
    ensures { OnOk result (length throttle.new.periods ≡ 1) }
{
    let payload = payload(alloc, port)?;
    match throttle.raise(alloc, Raised { event: 0, payload }, moment)? {
        Some(_) => Ok(1),
        None => Ok(0),
    }
}

/// How many events a tick sends.
fn tick(alloc: Global, throttle: &mut Throttle, moment: u64) -> Result<u64, NoMemory>
    requires { length throttle.old.periods ≡ 1 }
    ensures { OnOk result (length throttle.new.periods ≡ 1) }
{
    let sent = throttle.tick(alloc, moment)?;
    Ok(sent.len() as u64)
}

/// A throttle with a window of each of so many ports.
fn opened(alloc: Global, ports: u32) -> Result<Throttle, NoMemory>
    ensures { IfOk result (λ throttle. length throttle.periods ≡ 1) }
{
    let periods = periods(alloc, ports as u64)?;
    let mut throttle = Throttle::new(alloc, periods);
    for port in 0..ports as u64 {
        raise(alloc, &mut throttle, port, port)?;
    }
    Ok(throttle)
}

/// Raises an event of each of so many ports, one after the other, a microsecond apart. A window
/// lasts until its port comes again, and a tick after each hundredth ends those that are due. How
/// many events are sent.
pub fn run(alloc: Global, ports: u32, raises: u64) -> Result<u64, NoMemory> {
    let mut throttle = opened(alloc, ports)?;
    let mut sum = 0u64;
    if ports == 0 {
        return Ok(sum);
    }
    for call in 0..raises {
        let moment = call.wrapping_add(ports as u64);
        let port = call.wrapping_mul(7919) % ports as u64;
        sum = sum.wrapping_add(raise(alloc, &mut throttle, port, moment)?);
        if call % 100 == 99 {
            sum = sum.wrapping_add(tick(alloc, &mut throttle, moment)?);
        }
    }
    Ok(sum)
}
