// Calls that a list makes fail.
ghost use Rattle.std.specs.Prelude.{◌≡◌};
ghost use Rattle.atl_edges.specs.Causes.{is_listed};

/// Whether the call after so many is of the list.
pub fn is_listed(failing: &[u64], calls: u64) -> bool
    ensures { result ≡ is_listed failing.now calls }
{
    match calls.checked_add(1) {
        Some(number) => failing.contains(&number),
        None => false,
    }
}
