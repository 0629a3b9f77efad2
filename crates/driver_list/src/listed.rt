// The list of replicas: 4, and what 29 looks for.
ghost use Rattle.std.specs.Prelude.{◌≡◌};
ghost use Rattle.recovery.specs.Recovery.{contains, repeats, not_below};

// 4: a listed number is not below R.
pub fn not_below(replicas: u64, listed: &[u64]) -> bool
    ensures { result ≡ not_below replicas listed.now }
{
    listed.iter().any(|i| replicas <= *i)
}

fn contains(listed: &[u64], i: u64) -> bool
    ensures { result ≡ contains listed.now i }
{
    listed.contains(&i)
}

// Each number is looked for behind its place.
pub fn repeats(listed: &[u64]) -> bool
    ensures { result ≡ repeats listed.now }
{
    for (k, &i) in listed.iter().enumerate() {
        if contains(&listed[k + 1..], i) {
            return true;
        }
    }
    false
}
