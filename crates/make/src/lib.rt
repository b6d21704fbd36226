// make: an empty store, of node 0, one empty leaf as the root, and zeros, which is the packed form of the empty map; and the first two of these over
// any store, which is how clear makes a store empty. Relies on node (question 1, the writer) and on octets (zeros).

#![tactic(auto)]

ghost use Rattle.std.specs.Prelude.{◌≡◌, true, length};
ghost use Rattle.image.specs.Image.{whole_nodes};
ghost use Rattle.image.specs.Answers.{outcome_number};
ghost use Rattle.image.specs.Contract.{MakeMeets};
ghost use Rattle.make.specs.Emptied.{emptied};

use image::Refusal;

// Node 0, and a leaf with no pairs as the root. All other nodes are free, and keep their bytes.
pub fn write_empty(store: &mut [u8])
    requires { whole_nodes (length store.old) ≡ true }
    ensures { store.new ≡ emptied store.old }
{
    node::writer::write_header(store, 1, 1, 0);
    node::writer::write_empty_leaf(store, 1);
}

// The two over zeros, where the store is a whole number of nodes.
pub fn make(store: &mut [u8]) -> Result<(), Refusal>
    ensures { MakeMeets store.old (outcome_number result) store.new }
{
    let len = store.len();
    if !node::whole_nodes(len) {
        return Err(Refusal::Length);
    }
    octets::fill_at(store, 0, len, 0);
    write_empty(store);
    Ok(())
}
