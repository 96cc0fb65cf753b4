//! Finds the first place at which two texts differ.
ghost use Rattle.std.specs.Prelude.{◌≡◌, ◌≤◌, ◌↔◌, None, IfSome, length};
ghost use Rattle.audit_claim.specs.Difference.{difference};

/// The first place of what is claimed whose byte is not that of the text, or at which one of the two has ended and the other goes on; `None` exactly where
/// they are equal. It takes no memory.
pub fn difference(claimed: &[u8], text: &[u8]) -> Option<usize>
    ensures value { result ≡ difference claimed.now text.now }
    ensures equal { result ≡ None ↔ (claimed.now ≡ text.now) }
    ensures within { IfSome result (λ place. (place ≤ length claimed.now) × (place ≤ length text.now)) }
{
    let most = claimed.len().min(text.len());
    for i in 0..most {
        if claimed[i] != text[i] {
            return Some(i);
        }
    }
    if claimed.len() == text.len() {
        None
    } else {
        Some(most)
    }
}
