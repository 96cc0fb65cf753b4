//! Decides whether a client may publish a notification.
ghost use Rattle.std.specs.Prelude.{◌≡◌, length};
ghost use Rattle.base_order.specs.Order.{picked};
ghost use Rattle.law_routing.specs.Clients.{some_pass, accepts};
ghost use Rattle.net_model.specs.Real.{real};
ghost use Rattle.server_spec.specs.Session.{net_under};

use base_bits::Row;
use base_pool::Items;
use filter_covering::Ad;
use filter_text::Semantics;
use filter_types::{Notice, allows};

// Whether the advertisement allows the notice.
fn is_allowed_by(notice: &Notice, ad: &Ad) -> bool
    ensures { result ≡ real.allows ad.now notice.now }
{
    let _ = notice.attributes();
    allows(&ad.0, notice)
}

// Whether one of the advertisements with these numbers allows the notice.
fn is_allowed(adverts: &Items<Ad>, row: &Row, notice: &Notice) -> bool
    requires { row.now.width ≡ length adverts.now }
    ensures { result ≡ some_pass (λ a. real.allows a notice.now) (picked adverts.now row.now.members) }
{
    row.lemma_sorted();
    let mut at = 0;
    while let Some(i) = row.first_from(at) {
        if is_allowed_by(notice, adverts.at(i as usize)) {
            return true;
        }
        at = i + 1;
    }
    false
}

/// Whether a client with the advertisements of these numbers may publish a notice.
pub(crate) fn is_accepted(
    semantics: Semantics,
    adverts: &Items<Ad>,
    row: &Row,
    notice: &Notice,
) -> bool
    requires { row.now.width ≡ length adverts.now }
    ensures { result ≡ accepts real (net_under semantics) (picked adverts.now row.now.members) notice.now }
{
    match semantics {
        Semantics::Subscription => true,
        Semantics::Advertisement => is_allowed(adverts, row, notice),
    }
}
