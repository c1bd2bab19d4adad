//! The text of the library that defines the derived forms (R6RS 11 and the libraries report, 12).

ghost use Rattle.std.specs.Prelude.{◌≡◌};

/// The definitions of the derived forms, in terms of the core forms.
pub const DERIVED_SOURCE: &[u8] = br#"(define-syntax syntax-rules
  (lambda (x) (syntax-case x ()
    ((_ (k ...) ((key . p) t) ...) (for-all identifier? #'(k ... key ...))
     #'(lambda (x) (syntax-case x (k ...) ((dummy . p) #'t) ...))))))
(define-syntax let
  (lambda (x) (syntax-case x ()
    ((_ ((v e) ...) b1 b2 ...) (for-all identifier? #'(v ...))
     #'((lambda (v ...) b1 b2 ...) e ...))
    ((_ f ((v e) ...) b1 b2 ...) (for-all identifier? #'(f v ...))
     #'((letrec ((f (lambda (v ...) b1 b2 ...))) f) e ...)))))
(define-syntax let* (syntax-rules ()
  ((_ () b1 b2 ...) (let () b1 b2 ...))
  ((_ ((v e) c ...) b1 b2 ...) (let ((v e)) (let* (c ...) b1 b2 ...)))))
(define-syntax and (syntax-rules ()
  ((_) #t) ((_ e) e) ((_ e1 e2 ...) (if e1 (and e2 ...) #f))))
(define-syntax or (syntax-rules ()
  ((_) #f) ((_ e) e) ((_ e1 e2 ...) (let ((t e1)) (if t t (or e2 ...))))))
(define-syntax cond (syntax-rules (else =>)
  ((_ (else e1 e2 ...)) (begin e1 e2 ...))
  ((_ (e1 => e2)) (let ((t e1)) (if t (e2 t))))
  ((_ (e1 => e2) c1 c2 ...) (let ((t e1)) (if t (e2 t) (cond c1 c2 ...))))
  ((_ (e)) e)
  ((_ (e) c1 c2 ...) (let ((t e)) (if t t (cond c1 c2 ...))))
  ((_ (e e1 e2 ...)) (if e (begin e1 e2 ...)))
  ((_ (e e1 e2 ...) c1 c2 ...) (if e (begin e1 e2 ...) (cond c1 c2 ...)))))
(define-syntax case-clauses (syntax-rules (else)
  ((_ t (else e1 e2 ...)) (begin e1 e2 ...))
  ((_ t ((d ...) e1 e2 ...)) (if (memv t '(d ...)) (begin e1 e2 ...)))
  ((_ t ((d ...) e1 e2 ...) c1 c2 ...)
   (if (memv t '(d ...)) (begin e1 e2 ...) (case-clauses t c1 c2 ...)))))
(define-syntax case (syntax-rules ()
  ((_ e c1 c2 ...) (let ((t e)) (case-clauses t c1 c2 ...)))))
(define-syntax when (syntax-rules ()
  ((_ t e1 e2 ...) (if t (begin e1 e2 ...)))))
(define-syntax unless (syntax-rules ()
  ((_ t e1 e2 ...) (if (not t) (begin e1 e2 ...)))))
(define-syntax with-syntax
  (lambda (x) (syntax-case x ()
    ((_ ((p e) ...) b1 b2 ...)
     #'(syntax-case (list e ...) () ((p ...) (let () b1 b2 ...)))))))
(define-syntax do
  (lambda (x) (syntax-case x ()
    ((_ ((v i . s) ...) (t r ...) c ...)
     (with-syntax (((n ...)
         (map (lambda (v s) (syntax-case s () (() v) ((e) #'e)))
              #'(v ...) #'(s ...))))
       #'(let loop ((v i) ...)
           (if t (begin (if #f #f) r ...) (begin c ... (loop n ...)))))))))
(define-syntax let*-values (syntax-rules ()
  ((_ () b1 b2 ...) (let () b1 b2 ...))
  ((_ ((f e) c ...) b1 b2 ...)
   (call-with-values (lambda () e)
     (lambda f (let*-values (c ...) b1 b2 ...))))))
(define-syntax lv-formals (syntax-rules ()
  ((_ () (t ...) e cs vts b1 b2 ...)
   (call-with-values (lambda () e)
     (lambda (t ...) (lv-clauses cs vts b1 b2 ...))))
  ((_ (v . f) (t ...) e cs (vt ...) b1 b2 ...)
   (lv-formals f (t ... u) e cs (vt ... (v u)) b1 b2 ...))
  ((_ v (t ...) e cs (vt ...) b1 b2 ...)
   (call-with-values (lambda () e)
     (lambda (t ... . u) (lv-clauses cs (vt ... (v u)) b1 b2 ...))))))
(define-syntax lv-clauses (syntax-rules ()
  ((_ () ((v t) ...) b1 b2 ...) (let ((v t) ...) b1 b2 ...))
  ((_ ((f e) c ...) vts b1 b2 ...)
   (lv-formals f () e (c ...) vts b1 b2 ...))))
(define-syntax let-values (syntax-rules ()
  ((_ (c ...) b1 b2 ...) (lv-clauses (c ...) () b1 b2 ...))))
(define-syntax assert (syntax-rules ()
  ((_ e) (or e (assertion-violation #f "assertion failed")))))
(define-syntax identifier-syntax
  (lambda (x) (syntax-case x (set!)
    ((_ e) #'(lambda (x) (syntax-case x ()
        (id (identifier? #'id) #'e)
        ((_ x (... ...)) #'(e x (... ...))))))
    ((_ (id e1) ((set! var val) e2))
     (and (identifier? #'id) (identifier? #'var))
     #'(make-variable-transformer (lambda (x) (syntax-case x (set!)
        ((set! var val) #'e2)
        ((id x (... ...)) #'(e1 x (... ...)))
        (id (identifier? #'id) #'e1))))))))
"#;

/// The text of the derived library. It takes no memory.
pub fn derived_source() -> &'static [u8]
    ensures { result.now ≡ DERIVED_SOURCE.now }
{
    DERIVED_SOURCE
}
