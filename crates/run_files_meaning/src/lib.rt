//! What runs read: named files, one after another, each judged before the next.
#![tactic(auto)]
