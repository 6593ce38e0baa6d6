//! What an asker keeps to. The law is the contract of a function that does nothing, and speaks of the definitions alone. Those are
//! what the calls of an asker do, by their contracts.

ghost use Rattle.std.specs.Prelude.{List, Option};
ghost use Rattle.ptpm_manager.specs.Session.{SessionValue};
ghost use Rattle.ptpm_asker.specs.Allowed.{Input, IsAllowedAsker, Opening};
ghost use Rattle.ptpm_asker.specs.Desk.{Note};

/// An asker keeps to its desk. Let its driver do what it hands out to be saved or noted before it says so. Let inputs come in any
/// order. Let the program end at any moment, before such a deed or after it, and be opened again with what the file has. Then all
/// that is sent, saved, noted and begun is allowed:
/// - nothing is sent that the file has not, but the question whether a number is new, while there is no file;
/// - nothing leaves the file that the notes have not as reported or given up, but a question, and a request that had no way out;
/// - nothing is begun that the notes have not as begun, but a question;
/// - nothing is begun while the file has a request under way, but a question;
/// - nothing but a question is begun before an answer of this run shows that its number is new;
/// - what is noted as reported is what an answer to the latest request says that was heard.
pub fn asker_is_allowed()
    ensures { (o : Opening) (file : Option SessionValue) (notes : List Note) (inputs : List Input) →
        IsAllowedAsker o file notes inputs }
{}
