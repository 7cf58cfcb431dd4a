ghost use Rattle.std.specs.Prelude.{◌≡◌, ◌≤◌, ℕ, List, length};
ghost use Rattle.certify_facts.specs.Told.{Told};
ghost use Rattle.certify_file.specs.CertificateText.{IsCertificate, IsCertificateRefusal, IsCertificateWithin, longest, most};
ghost use Rattle.certify_file.specs.declared.error.CertificateError.{CertificateError};
ghost use Rattle.certify_file.specs.declared.error.CertificateError.TheVariants.{OutOfMemory};

/// The laws that a text is that of one certificate at most; that there is no reason but want of memory
/// to refuse the text of a certificate within the limits; and that the text of a certificate, as
/// `write_certificate` gives it, is within the limits where the number of its facts and its length
/// are, so that `read_certificate` reads this certificate back. It does nothing.
pub fn one_certificate()
    ensures one { (text : List ℕ) (c other : Told) → IsCertificate text c → IsCertificate text other → other ≡ c }
    ensures unrefused { (text : List ℕ) (c : Told) (error : CertificateError) → IsCertificateWithin text c → IsCertificateRefusal error text → error ≡ OutOfMemory }
    ensures written { (text : List ℕ) (c : Told) → IsCertificate text c → length c.lines ≤ most → length text ≤ longest → IsCertificateWithin text c }
{}
