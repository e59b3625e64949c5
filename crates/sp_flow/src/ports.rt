ghost use Rattle.std.specs.Prelude.{◌≡◌, ◌<◌, ◌⊎◌, ℕ, Contains, Some};
ghost use Rattle.sp_flow.specs.code.Least.{IsLeast, HasPort};

/// Whether a port is in a list.
fn has_port(own: &[u8], port: u8) -> bool
    ensures { HasPort own.now port result }
{
    'ports: for at in 0..own.len() {
        if own[at] == port {
            return true;
        }
    }
    false
}

/// The lower of a port and the lowest so far.
fn lower(best: Option<u8>, port: u8) -> Option<u8>
    ensures { IsLeast (λ n. (best ≡ Some n) ⊎ (n ≡ port)) result }
{
    match best {
        Some(found) => {
            if port < found {
                Some(port)
            } else {
                Some(found)
            }
        }
        None => Some(port),
    }
}

/// The lower of a port, unless it is in a list, and the lowest so far.
pub fn lower_unless(best: Option<u8>, own: &[u8], port: u8) -> Option<u8>
    ensures { IsLeast (λ n. (best ≡ Some n) ⊎ ((n ≡ port) × (Contains own.now n → ⊥))) result }
{
    if has_port(own, port) {
        best
    } else {
        lower(best, port)
    }
}

/// The lowest port of those so far and of a list, apart from those in a second list.
pub fn lowest_port(so_far: Option<u8>, ports: &[u8], own: &[u8]) -> Option<u8>
    ensures { IsLeast (λ n. (so_far ≡ Some n) ⊎ (Contains ports.now n × (Contains own.now n → ⊥))) result }
{
    let mut best = so_far;
    'ports: for at in 0..ports.len() {
        best = lower_unless(best, own, ports[at]);
    }
    best
}
