//! The fill: what gives fresh numbers to the names that wait.
ghost use Rattle.std.specs.Prelude.{◌≡◌, ℕ, ◌<◌, length, OnOk, IfOk};
ghost use Rattle.hosts_join.specs.Lawful.{AreLawfulAccounts};
ghost use Rattle.candidates.specs.Fill.{gift};
ghost use Rattle.candidates.specs.Settled.{settled, settled_by, AreWaiting, IsStart, IsDone};

use crate::filling::Filling;
use hosts_join::{Class, Names};
use std::alloc::{AllocError, Global};

/// What a name has before the fill: its pin, or else what it was given.
fn settled_number(class: Class, given: Option<u32>) -> Option<u32>
    ensures { result ≡ settled_by class given }
{
    match class {
        Class::Pinned(number) => Some(number),
        Class::Regular | Class::System => given,
    }
}

/// The numbers that names have before the fill.
pub fn settle(
    alloc: Global,
    names: &Names<'_>,
    given: &[Option<u32>],
) -> Result<Vec<Option<u32>>, AllocError>
    requires { length given.now ≡ length names.now.names }
    ensures len { IfOk result (λ ns. length ns.items ≡ length names.now.names) }
    ensures numbers { IfOk result
        (λ ns. (i : ℕ) → i < length names.now.names
        → gift ns.items i ≡ settled names.now given.now i) }
{
    let mut numbers = Vec::with_capacity(alloc, given.len())?;
    for index in 0..names.len() {
        numbers.push(settled_number(names.class(index), given[index as usize]))?;
    }
    Ok(numbers)
}

/// The indices of the names without a number, by the names in byte order.
pub fn waiting(
    alloc: Global,
    names: &Names<'_>,
    numbers: &[Option<u32>],
) -> Result<Vec<u32>, AllocError>
    requires { length numbers.now ≡ length names.now.names }
    ensures { IfOk result (λ ws. AreWaiting names.now numbers.now ws.items) }
{
    let mut waiting: Vec<u32> = Vec::new(alloc);
    for index in names.in_byte_order() {
        match numbers[*index as usize] {
            Some(_) => {}
            None => waiting.push(*index)?,
        }
    }
    Ok(waiting)
}

/// Gives each waiting name, in order, the least number of its pool that no name has.
pub fn fill(names: &Names<'_>, filling: &mut Filling, waiting: &[u32]) -> Result<(), AllocError>
    requires lawful { AreLawfulAccounts names.now }
    requires start { IsStart names.now filling.old }
    requires waiting { AreWaiting names.now filling.old waiting.now }
    ensures { OnOk result (IsDone names.now filling.old filling.new) }
{
    let mut regular: u32 = 0;
    let mut system: u32 = 0;
    for entry in waiting {
        let index = *entry;
        match names.class(index) {
            Class::System => system = filling.give(names.pool(Class::System), index, system)?,
            Class::Regular => regular = filling.give(names.pool(Class::Regular), index, regular)?,
            Class::Pinned(_) => unreachable!(),
        }
    }
    Ok(())
}
