// The call Delete: a key's record leaves the store, and leaves are joined until the set's own stand
// (document 01, "Calls").
#![tactic(auto)]

ghost use Rattle.store.specs.Answers.{changed_answer, changed_state};
ghost use Rattle.store.specs.Promises.{DeletePromise};
ghost use Rattle.store.specs.Store.{store};

use change_guard::{join_keeps, removal_keeps};
use delete_plan::{Plan, plan_delete};
use delete_steps::{join_leaves, keep_leaf};
use key_encoding::encode_key;
use refusals::{encodings_fit, validate_lent};
use shape::Key;
use shape::refusal::Refusal;
use store::{Changed, State};

// Removes the record with a key, joins leaves until the leaves of the set without it stand, and
// returns the depth of the key's leaf afterwards. Refused with 1, 14, 15, 2, 3, 5 or 9, the first
// that holds in this order; 5 carries the depth of the leaf in which the absent key falls; a refused
// call changes nothing. On any store no word and no page of a leaf that is not joined is lost.
pub fn delete(state: State, dir: &mut [u32], pages: &mut [u8], key: Key) -> Result<Changed, Refusal>
    ensures { DeletePromise (store state dir.old pages.old) key.values
        (changed_answer result) (store (changed_state state result) dir.new pages.new) }
{
    validate_lent(state, dir.len(), pages.len())?;
    let encoded = encode_key(state.shape, key);
    if !encodings_fit(state.shape, encoded) {
        return Err(Refusal::Value);
    }
    let encodings = encoded.values;
    let plan = match plan_delete(state, dir, pages, encoded) {
        Ok(plan) => plan,
        Err(refusal) => return Err(refusal),
    };
    match plan {
        Plan::Keep(found) => {
            if !removal_keeps(state, dir, encodings, found) {
                return Err(Refusal::Unsound);
            }
            keep_leaf(state, dir, pages, encodings, found);
            Ok(Changed {
                state,
                depth: found.depth,
            })
        }
        Plan::Join(found, join) => {
            if !join_keeps(state, dir, encodings, found, join) {
                return Err(Refusal::Unsound);
            }
            let joined = join_leaves(state, dir, pages, encodings, found, join);
            Ok(Changed {
                state: joined,
                depth: join.top,
            })
        }
    }
}
