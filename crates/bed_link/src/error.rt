//! Why modules aren't linked.
ghost use Rattle.std.specs.Prelude.{◌≡◌, ◌≢◌};

use bed_lang::Name;
use std::alloc::{AllocError, Global};
use std::fmt::{self, Write};
use thiserror::Error;

/// The first rule of linking that modules break. Modules are numbered from 0.
#[derive(Drop, Error)]
pub enum LinkError {
    /// Two modules, two functions or two given addresses have this name, or a function and a given
    /// address.
    #[error("a name is declared twice")]
    Twice(Name),
    /// An import is no exported function and has no given address, or no module imports the name for
    /// which an address is given.
    #[error("a name is unresolved")]
    Unresolved(Name),
    /// The signature or predicate of this name isn't the same in two modules; or the import of this name
    /// has another signature than the function, or than the first import of it.
    #[error("a name differs in modules {first} and {second}")]
    Differs { name: Name, first: u32, second: u32 },
    /// The code is longer than 1,048,576 bytes or passes 2^32. At most 18446744073709551615.
    #[error("the code is too long: {0} bytes")]
    CodeTooLong(u64),
    /// The address of this import lies in the code or is another import's.
    #[error("an import has a bad address")]
    Address(Name),
    /// Want of memory.
    #[error("want of memory")]
    Memory,
}

impl fmt::Debug for LinkError {
    fn fmt<W: Write>(&self, f: &mut fmt::Formatter<W>) -> fmt::Result {
        fmt::Display::fmt(self, f)
    }
}

impl From<AllocError> for LinkError {
    ghost use Rattle.std.specs.Prelude.{◌≡◌};
    ghost use Rattle.bed_link.specs.declared.error.LinkError.TheVariants.{Memory};

    ghost from_gives = { λ _ e. e ≡ Memory };

    fn from(_: AllocError) -> LinkError {
        LinkError::Memory
    }
}

/// The error of a name that is declared twice.
pub(crate) fn twice(alloc: Global, name: &Name) -> LinkError
    ensures { result ≢ LinkError.Memory → result ≡ LinkError.Twice name.now }
{
    match name.copy(alloc) {
        Ok(name) => LinkError::Twice(name),
        Err(_) => LinkError::Memory,
    }
}

/// The error of a name that is unresolved.
pub(crate) fn unresolved(alloc: Global, name: &Name) -> LinkError
    ensures { result ≢ LinkError.Memory → result ≡ LinkError.Unresolved name.now }
{
    match name.copy(alloc) {
        Ok(name) => LinkError::Unresolved(name),
        Err(_) => LinkError::Memory,
    }
}

/// The error of a name that differs.
pub(crate) fn differs(alloc: Global, name: &Name, first: u32, second: u32) -> LinkError
    ensures { result ≢ LinkError.Memory → result ≡ LinkError.Differs name.now first second }
{
    match name.copy(alloc) {
        Ok(name) => LinkError::Differs {
            name,
            first,
            second,
        },
        Err(_) => LinkError::Memory,
    }
}

/// The error of an import with a bad address.
pub(crate) fn bad_address(alloc: Global, name: &Name) -> LinkError
    ensures { result ≢ LinkError.Memory → result ≡ LinkError.Address name.now }
{
    match name.copy(alloc) {
        Ok(name) => LinkError::Address(name),
        Err(_) => LinkError::Memory,
    }
}
