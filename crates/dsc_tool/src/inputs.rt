// Reading the inputs.
ghost use Rattle.std.specs.Prelude.{◌≡◌, ◌≤◌, ◌+◌, IfOk, IfErr, length};
ghost use Rattle.load_model.specs.Phases.{contents};
ghost use Rattle.dsc_base.specs.Outside.{HasFile};
ghost use Rattle.dsc_tool.specs.Inputs.{AreRead, CacheCause, FileCause, FilesCause};
ghost use Rattle.dsc_tool.specs.Stops.{cache_limit, file_limit, input_limit};
ghost use Rattle.dsc_tool.specs.WordNumbers.{most_inputs};

use crate::stop::{CACHE_LIMIT, FILE_LIMIT, INPUT_LIMIT, Stop, unread_cache, unread_file};
use dsc_base::{Break, Rule, Store, Text};
use std::alloc::Global;

/// The cache of this name, which is at most `CACHE_LIMIT` bytes long.
pub(crate) fn read_cache<S: Store>(
    alloc: Global,
    store: &mut S,
    name: &str,
) -> Result<Vec<u8>, Stop>
    ensures there { IfOk result (λ bytes. HasFile (S.files store.old) name.now bytes.items) }
    ensures within { IfOk result (λ bytes. length bytes.items ≤ cache_limit) }
    ensures cause { IfErr result (CacheCause (S.files store.old)
        (S.get_faults store.old) (S.get_faults store.new) name.now) }
    ensures files { S.files store.new ≡ S.files store.old }
    ensures get_count { S.get_faults store.old ≤ S.get_faults store.new }
    ensures put_count { S.put_faults store.new ≡ S.put_faults store.old }
{
    store.get(alloc, name, CACHE_LIMIT).map_err(unread_cache)
}

/// The files of these names, in their order, behind so many other inputs. Each is at most `FILE_LIMIT` bytes
/// long, and all together are at most `INPUT_LIMIT`. The first that isn't there, can't be read or is too long
/// ends the reading: `Unread` tells its number among the inputs, and `Refused` the one among the files.
///
/// What is read, and why the reading ends, is proved. That each file is asked for once, in order, and none
/// behind the one that ends the reading, is tested.
pub(crate) fn read_files<S: Store>(
    alloc: Global,
    store: &mut S,
    first: u32,
    names: &[Text],
) -> Result<Vec<Vec<u8>>, Stop>
    requires first { first ≤ 1 }
    requires few { length names.now ≤ most_inputs }
    ensures read { IfOk result (λ inputs. AreRead (S.files store.old) names.now (contents inputs.items)) }
    ensures cause { IfErr result (FilesCause (S.files store.old)
        (S.get_faults store.old) (S.get_faults store.new) first names.now) }
    ensures files { S.files store.new ≡ S.files store.old }
    ensures put_count { S.put_faults store.new ≡ S.put_faults store.old }
{
    let mut inputs = Vec::with_capacity(alloc, names.len())?;
    let mut total = 0;
    for (number, name) in names.iter().enumerate() {
        let input = read_file(alloc, store, first, name.as_str(), number as u32, total)?;
        total += input.len() as u64;
        inputs.push(input)?;
    }
    Ok(inputs)
}

/// The bytes of the file of this name and number, behind so many other inputs and earlier files of `before`
/// bytes together.
fn read_file<S: Store>(
    alloc: Global,
    store: &mut S,
    first: u32,
    name: &str,
    number: u32,
    before: u64,
) -> Result<Vec<u8>, Stop>
    requires first { first ≤ 1 }
    requires number { number ≤ most_inputs }
    requires before { before ≤ input_limit }
    ensures there { IfOk result (λ bytes. HasFile (S.files store.old) name.now bytes.items) }
    ensures within { IfOk result (λ bytes. length bytes.items ≤ file_limit) }
    ensures together { IfOk result (λ bytes. before + length bytes.items ≤ input_limit) }
    ensures cause { IfErr result (FileCause (S.files store.old)
        (S.get_faults store.old) (S.get_faults store.new) first name.now number before) }
    ensures files { S.files store.new ≡ S.files store.old }
    ensures get_count { S.get_faults store.old ≤ S.get_faults store.new }
    ensures put_count { S.put_faults store.new ≡ S.put_faults store.old }
{
    let bytes = store
        .get(alloc, name, FILE_LIMIT)
        .map_err(|fault| unread_file(first + number, number, fault))?;
    if bytes.len() as u64 > INPUT_LIMIT - before {
        return Err(Stop::Refused(Break {
            rule: Rule::InputTooLarge,
            image: number,
            at: INPUT_LIMIT,
        }));
    }
    Ok(bytes)
}
