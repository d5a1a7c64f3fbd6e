//! What the text of a scope declares, before anything is evaluated.
#![tactic(auto, using(crate::proofs::Rules::rules))]

mod declared;

pub use declared::{
    begin, copied, declare, declare_constants, declare_head, declare_item, declare_items,
    declare_parameters, declare_ports, declare_tokens, plain_entry, put,
};
