//! Tables of addresses by names.
ghost use Rattle.std.specs.Prelude.{◌≡◌, ◌∷◌, ◌++◌, ℕ, List, map, IfOk, OnOk};
ghost use Rattle.bed_table.specs.Layout.{Label, import_label};
ghost use Rattle.bed_layout.specs.Addresses.{label, function_label, addresses, address_in, address_with};

use bed_lang::Name;
use bed_names::Table;
use std::alloc::{AllocError, Global};

// Adds a name with its address, where the name is new.
fn add(table: &mut Table, name: &Name, address: u32) -> Result<(), AllocError>
    ensures { OnOk result ((more : List Label) (x : List ℕ) → address_with table.new more x ≡ address_with table.old (label name.now address ∷ more) x) }
{
    table.add(name.bytes.as_slice(), address as usize)?;
    Ok(())
}

fn add_functions(table: &mut Table, functions: &[(Name, u32, bool)]) -> Result<(), AllocError>
    ensures { OnOk result ((more : List Label) (x : List ℕ) → address_with table.new more x ≡ address_with table.old (map function_label functions.now ++ more) x) }
{
    for function in functions {
        add(table, &function.0, function.1)?;
    }
    Ok(())
}

fn add_imports(table: &mut Table, imports: &[(Name, u32)]) -> Result<(), AllocError>
    ensures { OnOk result ((more : List Label) (x : List ℕ) → address_with table.new more x ≡ address_with table.old (map import_label imports.now ++ more) x) }
{
    for import in imports {
        add(table, &import.0, import.1)?;
    }
    Ok(())
}

/// The addresses of functions and imports by their names.
pub(crate) fn table_of(
    alloc: Global,
    functions: &[(Name, u32, bool)],
    imports: &[(Name, u32)],
) -> Result<Table, AllocError>
    ensures { IfOk result (λ t. address_in t ≡ addresses functions.now imports.now) }
{
    let mut table = Table::new(alloc);
    add_functions(&mut table, functions)?;
    add_imports(&mut table, imports)?;
    Ok(table)
}
