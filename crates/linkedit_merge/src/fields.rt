// What the types of the fields of tables say of them, since each is read.
ghost use Rattle.std.specs.Prelude.{◌≡◌, ◌<◌, ◌^◌, length, All};
ghost use Rattle.linkedit_merge.specs.ReadBack as spec;

use nlist_table::{Symbol, Tables};

fn read_numbers(desc: u16, value: u64)
    ensures desc { desc < 2 ^ 16 }
    ensures value { value < 2 ^ 64 }
{
    let _read = (desc, value);
}

fn read_symbol(symbol: &Symbol<'_>)
    ensures { spec.FitsSymbol symbol.now }
{
    read_numbers(symbol.desc, symbol.value);
}

fn read_symbols(symbols: &[Symbol<'_>])
    ensures { All spec.FitsSymbol symbols.now }
{
    for symbol in symbols {
        read_symbol(symbol);
    }
}

fn read_indices(indices: &[u32]) -> usize
    ensures { All (λ index. index < 2 ^ 32) indices.now }
{
    indices.len()
}

fn read_groups(groups: [u32; 6])
    ensures { length groups ≡ 6 }
{
    let _read = groups;
}

/// Does nothing; tells what every table has.
fn read_table(table: &Tables<'_>)
    ensures { spec.HasFields table.now }
{
    read_symbols(&table.symbols);
    read_indices(&table.indirect);
    read_groups(table.groups);
}

/// Does nothing; tells what all tables have.
pub(crate) fn read_fields(tables: &[Tables<'_>])
    ensures { All spec.HasFields tables.now }
{
    for table in tables {
        read_table(table);
    }
}
