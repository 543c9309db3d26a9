//! Tests of `coniks_threads`, `coniks_directory` and `coniks_tool` through their public calls, in a separate crate so that
//! each library is proved once. They test what no contract says.
#![tactic(auto)]

#[cfg(test)]
mod tests;
