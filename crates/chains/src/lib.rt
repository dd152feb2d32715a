// Items that have codes, chained by code in one table: the items of one code are found without a
// look at the others.
#![tactic(auto)]

ghost use Rattle.std.specs.Prelude.{◌≡◌, ◌+◌, ◌<◌, length};
ghost use Rattle.chains.specs.Chains.{entered};

// The next item joins the chain of its code. An entry is one more than an item's number, so that 0
// ends a chain.
pub fn enter(table: &mut [u16], heads: usize, code: usize, item: u16)
    requires { (code < heads) × (heads + item < length table.old) × (item < 65535) }
    ensures { table.new ≡ entered heads code item table.old }
{
    let last = table[code];
    let at = heads + item as usize;
    table[at] = last;
    table[code] = item + 1;
}
