//! What holds of a running aggregate whose rows come and go, said in the contracts of functions
//! that do nothing.
ghost use Rattle.std.specs.Prelude.{◌≡◌, ℕ, ◌<◌, ◌-◌, ◌^◌, Option, List, length};
ghost use Rattle.tl_types.specs.Plain as plain;
ghost use Rattle.tl_running.specs.Standing.{Kept, number_in, IsShort, StandsFor, Inserts, HasRoom, CanLeave, Enters};

/// Carries a law in its contract, and does nothing: where what is kept stands for rows, fewer than
/// 2^32 - 1, there is room for one more; and with the number of a row more it stands for the rows
/// with that row among them.
pub fn a_row_enters()
    ensures room { (kept : Kept) (column : Option ℕ) (rows : List plain.Row)
        → StandsFor kept column rows → length rows < 2 ^ 32 - 1 → HasRoom kept }
    ensures stands { (old new : Kept) (column : Option ℕ) (row : plain.Row)
        (fewer more : List plain.Row) → IsShort (number_in column row)
        → StandsFor old column fewer → Inserts row fewer more
        → Enters old new (number_in column row) → StandsFor new column more }
{}

/// Carries a law in its contract, and does nothing: where what is kept stands for rows, fewer than
/// 2^32, the number of each of them can be taken out; and then it stands for the rows without that
/// row.
pub fn a_row_leaves()
    ensures can { (kept : Kept) (column : Option ℕ) (row : plain.Row)
        (fewer more : List plain.Row) → StandsFor kept column more → Inserts row fewer more
        → length more < 2 ^ 32 → CanLeave kept (number_in column row) }
    ensures stands { (old new : Kept) (column : Option ℕ) (row : plain.Row)
        (fewer more : List plain.Row) → StandsFor old column more → Inserts row fewer more
        → Enters new old (number_in column row) → StandsFor new column fewer }
{}
