// What holds of lines, groups and their events whatever constructs there are, and the interfaces of leaves and
// containers.
#![tactic(auto)]
