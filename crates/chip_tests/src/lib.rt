// Examples of what the chips do, run over the makes and the layers.
#![tactic(auto)]

#[cfg(test)]
mod tests;
