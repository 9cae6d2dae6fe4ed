ghost use Rattle.std.specs.Prelude.{◌≡◌, IfOk};
ghost use Rattle.spg_script.specs.Speech.{key_or_null_in, conds_in, query_in};

use spg_base::{List, Memory};
use spg_opclass::Query;
use spg_script::{AnyCond, AnyKey, AnyQuery, Spoken};
use std::alloc::Global;

/// The class's key for a script's, or a null. None exactly where the class has no such key.
pub fn key_in<O: Spoken>(class: &O, key: &Option<AnyKey>) -> Result<Option<Option<O::Key>>, Memory>
    ensures { IfOk result (λ found. found ≡ key_or_null_in O.speech key.now) }
{
    let Some(key) = key else {
        return Ok(Some(None));
    };
    match class.key_in(key)? {
        Some(found) => Ok(Some(Some(found))),
        None => Ok(None),
    }
}

/// The class's conditions for a script's. None exactly where the class lacks one.
fn conds_in<O: Spoken>(
    alloc: Global,
    class: &O,
    conds: &[AnyCond],
) -> Result<Option<List<O::Cond>>, Memory>
    ensures { IfOk result (λ found. found ≡ conds_in O.speech conds.now) }
{
    let mut found = List::new(alloc);
    for cond in conds {
        let Some(one) = class.cond_in(cond)? else {
            return Ok(None);
        };
        found.push(one)?;
    }
    Ok(Some(found))
}

/// The class's query for a script's. None exactly where the class lacks a condition.
pub fn query_in<O: Spoken>(
    alloc: Global,
    class: &O,
    query: &AnyQuery,
) -> Result<Option<Query<O>>, Memory>
    ensures { IfOk result (λ found. found ≡ query_in O.speech query.now) }
{
    match query {
        AnyQuery::All => Ok(Some(Query::All)),
        AnyQuery::Null => Ok(Some(Query::Null)),
        AnyQuery::Where(conds) => match conds_in(alloc, class, conds.as_slice())? {
            Some(found) => Ok(Some(Query::Where(found))),
            None => Ok(None),
        },
    }
}
