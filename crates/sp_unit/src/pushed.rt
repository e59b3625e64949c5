//! Lists that grow at their end.
ghost use Rattle.std.specs.Prelude.{◌≡◌, ◌++◌, IfOk};
ghost use Rattle.std.specs.Option.{option_to_list};

use sp_base::Memory;

/// A list with one element more, where there is one.
pub(crate) fn with_one<T: Drop>(list: Vec<T>, one: Option<T>) -> Result<Vec<T>, Memory>
    ensures { IfOk result (λ more. more.items ≡ list.items ++ option_to_list one) }
{
    let mut more = list;
    if let Some(one) = one {
        more.push(one)?;
    }
    Ok(more)
}
