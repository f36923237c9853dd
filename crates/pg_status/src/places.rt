//! Which place a new connection gets, where there are so many and no more.
ghost use Rattle.std.specs.Prelude.{◌≡◌, ◌<◌, ◌≤◌, None, IfSome, length, slice_index_or};
ghost use Rattle.std.specs.Duration.{as_nanos};
ghost use Rattle.std.specs.List.{All, IsFirstMaxByKey};

use std::time::Duration;

/// The place that a new connection gets, by how long the connection of each place has been idle: for no time where it is
/// busy, for `Duration::MAX` where the place is free. It is the first of those that have been idle longest, where that is `least` at
/// least: its connection is to be closed. Else there is none.
pub fn place_for(idle: &[Duration], least: Duration) -> Option<usize>
    ensures longest { IfSome result (λ at. IsFirstMaxByKey as_nanos idle.now (length idle.now) at) }
    ensures enough { IfSome result (λ at. as_nanos least ≤ as_nanos (slice_index_or idle.now at least)) }
    ensures none { result ≡ None → All (λ it. as_nanos it < as_nanos least) idle.now }
{
    if idle.is_empty() {
        return None;
    }
    let longest = longest_of(idle);
    if idle[longest].as_nanos() < least.as_nanos() {
        None
    } else {
        Some(longest)
    }
}

/// The first of those that have been idle longest.
fn longest_of(idle: &[Duration]) -> usize
    requires { 0 < length idle.now }
    ensures { IsFirstMaxByKey as_nanos idle.now (length idle.now) result }
{
    let mut longest = 0;
    for at in 1..idle.len() {
        if idle[at].as_nanos() > idle[longest].as_nanos() {
            longest = at;
        }
    }
    longest
}
