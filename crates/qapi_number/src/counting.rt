ghost use Rattle.std.specs.Prelude.{◌≡◌, ◌+◌, IfOk};

use qm_base::NoMemory;

/// The number in 32 bits; want of memory where it does not fit.
pub fn narrow(number: usize) -> Result<u32, NoMemory>
    ensures { IfOk result (λ n. n ≡ number) }
{
    if number < 4_294_967_296 {
        Ok(number as u32)
    } else {
        Err(NoMemory)
    }
}

/// The sum in 32 bits; want of memory where it does not fit.
pub fn sum(first: usize, second: usize) -> Result<u32, NoMemory>
    ensures { IfOk result (λ n. n ≡ first + second) }
{
    match first.checked_add(second) {
        Some(number) => narrow(number),
        None => Err(NoMemory),
    }
}
