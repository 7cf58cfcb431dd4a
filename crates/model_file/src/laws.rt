ghost use Rattle.std.specs.Prelude.{◌≡◌, ◌≤◌, ℕ, List, length};
ghost use Rattle.flow_model.specs.Graph.{Graph};
ghost use Rattle.flow_model.specs.Rules.{IsValid};
ghost use Rattle.model_file.specs.ModelText.{IsModelText};
ghost use Rattle.model_file.specs.declared.version.ModelVersion.{ModelVersion};
ghost use Rattle.model_file.specs.declared.error.ModelError.{ModelError};
ghost use Rattle.model_file.specs.declared.error.ModelError.TheVariants.{OutOfMemory};
ghost use Rattle.model_file.specs.Refusal.{IsModel, IsModelRefusal, longest};

/// The laws that a text is that of one model at most; that there is no reason but want of memory to
/// refuse the text of a model; and that the text of a valid model in either version is one that
/// `read_model` reads back where it is no longer than 16 MiB. It does nothing.
pub fn a_text_has_one_model()
    ensures one { (text : List ℕ) (g h : Graph) → IsModel text g → IsModel text h → g ≡ h }
    ensures accepted { (text : List ℕ) (g : Graph) (error : ModelError) → IsModel text g → IsModelRefusal error text → error ≡ OutOfMemory }
    ensures written { (version : ModelVersion) (text : List ℕ) (g : Graph) → IsModelText version text g → IsValid g → length text ≤ longest → IsModel text g }
{}
