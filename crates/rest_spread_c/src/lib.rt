// The lowering for C: the entries of rest_spread, as exported names.
#![tactic(auto)]

ghost use Rattle.std.specs.Prelude.{◌≡◌};
ghost use Rattle.lowering.specs.Answer.{highest_limit, outcome};
ghost use Rattle.rest_spread.specs.Entry.{lent_of, handed_back};
ghost use Rattle.rest_spread.specs.Version.{version};

use rest_spread::Lowered;

#[unsafe(no_mangle)]
pub extern "C" fn rest_spread_lower_within(
    depth: u32,
    options: u32,
    tree: &[u8],
    tree_out: &mut [u8],
    list_out: &mut [u8],
    work: &mut [u8],
) -> Lowered
    ensures { handed_back result tree_out.new list_out.new work.new ≡ outcome depth options tree.now (lent_of tree_out.old list_out.old work.old) }
{
    rest_spread::rest_spread_lower_within(depth, options, tree, tree_out, list_out, work)
}

#[unsafe(no_mangle)]
pub extern "C" fn rest_spread_lower(
    options: u32,
    tree: &[u8],
    tree_out: &mut [u8],
    list_out: &mut [u8],
    work: &mut [u8],
) -> Lowered
    ensures { handed_back result tree_out.new list_out.new work.new ≡ outcome highest_limit options tree.now (lent_of tree_out.old list_out.old work.old) }
{
    rest_spread::rest_spread_lower(options, tree, tree_out, list_out, work)
}

#[unsafe(no_mangle)]
pub extern "C" fn rest_spread_version() -> u32
    ensures { result ≡ version }
{
    rest_spread::version::rest_spread_version()
}
