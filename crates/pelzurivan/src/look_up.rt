// The book of three-input tables, for C.
ghost use Rattle.std.specs.Prelude.{◌≡◌};
ghost use Rattle.book.specs.Book.{entry};

use book::look_up::look_up;

// The entry of a table: the least number that it can be turned into.
#[unsafe(no_mangle)]
pub extern "C" fn pelzurivan_look_up(table: u8) -> u8
    ensures { result ≡ entry table }
{
    look_up(table)
}
