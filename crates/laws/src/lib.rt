// No code: the laws of the paper's definitions alone, however few crates use them. specs/Reading has lookup, soundness and the walk for next told
// from inside a node, specs/Upkeep what a flush and a heal make of trees and images, the other files tables, trees, pages and single nodes. Relies on
// image (the definitions), octets (the order of bytes) and path (the shape of a path).

#![tactic(auto)]
