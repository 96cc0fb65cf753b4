//! Each law of whole runs is called at the real theory of filters.
use net_model::{Real, law};

#[test]
fn laws_of_journals() {
    law_phases::each_net::<Real>();
    law_phases::last_moment::<Real>();
    law_phases::run_begins::<Real>();
    law_phases::moments_stay::<Real>();
    law_phases::fixed_by_turns::<Real>();
    law_phases::happens::<Real>();
    law_phases::permitted::<Real>();
    law_phases::run_grows::<Real>();
    law_phases::messages::<Real>();
    law_phases::one_tree::<Real>();
    law_phases::bounded::<Real>();
    law_phases::keeps_clients::<Real>();
    law_phases::opening_stands::<Real>();
    law_phases::phase_goes_on::<Real>();
}

#[test]
fn laws_of_deliveries() {
    law_phases::never_twice::<Real>();
    law_phases::delivered_in_order::<Real>();
    law_phases::delivered_by_phase::<Real>();
    law_phases::causal_order::<Real>();
    law_phases::put_in_order::<Real>();
    law_phases::routes_publication::<Real>();
    law_phases::routed_in_order::<Real>();
    law_phases::authentic::<Real>();
    law_phases::delivered_allowed::<Real>();
    law_phases::delivered_stays::<Real>();
    law_phases::settled_delivery::<Real>();
    law_phases::settled_by::<Real>();
    law_phases::owed_due::<Real>();
    law_phases::due_settled::<Real>();
    law_phases::due_once::<Real>();
    law_phases::owed_settled::<Real>();
    law_phases::owed_once::<Real>();
    law_phases::stable_inputs::<Real>();
}

#[test]
fn laws_of_servers() {
    law_phases::quiet_rests::<Real>();
    law_phases::begins_at_rest::<Real>();
    law_phases::held_was_sent::<Real>();
    law_phases::installed_is_held::<Real>();
    law_phases::not_behind::<Real>();
    law_phases::quiet_flows::<Real>();
    law_phases::holds_roots::<Real>();
    law_phases::same_tree_again::<Real>();
    law_phases::in_force::<Real>();
    law_phases::pruning::<Real>();
    law_phases::sent_where_wanted::<Real>();
    law_phases::economy::<Real>();
    law_phases::flooding::owed_once::<Real>();
    law_phases::flooding::owes_due::<Real>();
    law_phases::flooding::delivered_allowed::<Real>();
    law_phases::flooding::never_twice::<Real>();
    law_phases::drained_when_through::<Real>();
    law_phases::walk_drains::<Real>();
}

#[test]
fn laws_of_nets() {
    law::lemma_lawful_net();
    law::within_limits();
    law::order_of_adding::<Real>();
    law::one_more_command::<Real>();
    law::client_lists();
}
