// The table of the named character references of HTML. Written by `scripts/entities.py`, which says from what.

/// The names, in the order of their bytes, with a `;` between them.
#[rattlefmt::skip]
pub(crate) static NAMES: [u8; 16128] = *b"\
    AElig;AMP;Aacute;Abreve;Acirc;Acy;Afr;Agrave;Alpha;Amacr;And;Aogon;Aopf;ApplyFunction;Aring;Ascr;Assign;Atilde;A\
    uml;Backslash;Barv;Barwed;Bcy;Because;Bernoullis;Beta;Bfr;Bopf;Breve;Bscr;Bumpeq;CHcy;COPY;Cacute;Cap;CapitalDif\
    ferentialD;Cayleys;Ccaron;Ccedil;Ccirc;Cconint;Cdot;Cedilla;CenterDot;Cfr;Chi;CircleDot;CircleMinus;CirclePlus;C\
    ircleTimes;ClockwiseContourIntegral;CloseCurlyDoubleQuote;CloseCurlyQuote;Colon;Colone;Congruent;Conint;ContourI\
    ntegral;Copf;Coproduct;CounterClockwiseContourIntegral;Cross;Cscr;Cup;CupCap;DD;DDotrahd;DJcy;DScy;DZcy;Dagger;D\
    arr;Dashv;Dcaron;Dcy;Del;Delta;Dfr;DiacriticalAcute;DiacriticalDot;DiacriticalDoubleAcute;DiacriticalGrave;Diacr\
    iticalTilde;Diamond;DifferentialD;Dopf;Dot;DotDot;DotEqual;DoubleContourIntegral;DoubleDot;DoubleDownArrow;Doubl\
    eLeftArrow;DoubleLeftRightArrow;DoubleLeftTee;DoubleLongLeftArrow;DoubleLongLeftRightArrow;DoubleLongRightArrow;\
    DoubleRightArrow;DoubleRightTee;DoubleUpArrow;DoubleUpDownArrow;DoubleVerticalBar;DownArrow;DownArrowBar;DownArr\
    owUpArrow;DownBreve;DownLeftRightVector;DownLeftTeeVector;DownLeftVector;DownLeftVectorBar;DownRightTeeVector;Do\
    wnRightVector;DownRightVectorBar;DownTee;DownTeeArrow;Downarrow;Dscr;Dstrok;ENG;ETH;Eacute;Ecaron;Ecirc;Ecy;Edot\
    ;Efr;Egrave;Element;Emacr;EmptySmallSquare;EmptyVerySmallSquare;Eogon;Eopf;Epsilon;Equal;EqualTilde;Equilibrium;\
    Escr;Esim;Eta;Euml;Exists;ExponentialE;Fcy;Ffr;FilledSmallSquare;FilledVerySmallSquare;Fopf;ForAll;Fouriertrf;Fs\
    cr;GJcy;GT;Gamma;Gammad;Gbreve;Gcedil;Gcirc;Gcy;Gdot;Gfr;Gg;Gopf;GreaterEqual;GreaterEqualLess;GreaterFullEqual;\
    GreaterGreater;GreaterLess;GreaterSlantEqual;GreaterTilde;Gscr;Gt;HARDcy;Hacek;Hat;Hcirc;Hfr;HilbertSpace;Hopf;H\
    orizontalLine;Hscr;Hstrok;HumpDownHump;HumpEqual;IEcy;IJlig;IOcy;Iacute;Icirc;Icy;Idot;Ifr;Igrave;Im;Imacr;Imagi\
    naryI;Implies;Int;Integral;Intersection;InvisibleComma;InvisibleTimes;Iogon;Iopf;Iota;Iscr;Itilde;Iukcy;Iuml;Jci\
    rc;Jcy;Jfr;Jopf;Jscr;Jsercy;Jukcy;KHcy;KJcy;Kappa;Kcedil;Kcy;Kfr;Kopf;Kscr;LJcy;LT;Lacute;Lambda;Lang;Laplacetrf\
    ;Larr;Lcaron;Lcedil;Lcy;LeftAngleBracket;LeftArrow;LeftArrowBar;LeftArrowRightArrow;LeftCeiling;LeftDoubleBracke\
    t;LeftDownTeeVector;LeftDownVector;LeftDownVectorBar;LeftFloor;LeftRightArrow;LeftRightVector;LeftTee;LeftTeeArr\
    ow;LeftTeeVector;LeftTriangle;LeftTriangleBar;LeftTriangleEqual;LeftUpDownVector;LeftUpTeeVector;LeftUpVector;Le\
    ftUpVectorBar;LeftVector;LeftVectorBar;Leftarrow;Leftrightarrow;LessEqualGreater;LessFullEqual;LessGreater;LessL\
    ess;LessSlantEqual;LessTilde;Lfr;Ll;Lleftarrow;Lmidot;LongLeftArrow;LongLeftRightArrow;LongRightArrow;Longleftar\
    row;Longleftrightarrow;Longrightarrow;Lopf;LowerLeftArrow;LowerRightArrow;Lscr;Lsh;Lstrok;Lt;Map;Mcy;MediumSpace\
    ;Mellintrf;Mfr;MinusPlus;Mopf;Mscr;Mu;NJcy;Nacute;Ncaron;Ncedil;Ncy;NegativeMediumSpace;NegativeThickSpace;Negat\
    iveThinSpace;NegativeVeryThinSpace;NestedGreaterGreater;NestedLessLess;NewLine;Nfr;NoBreak;NonBreakingSpace;Nopf\
    ;Not;NotCongruent;NotCupCap;NotDoubleVerticalBar;NotElement;NotEqual;NotEqualTilde;NotExists;NotGreater;NotGreat\
    erEqual;NotGreaterFullEqual;NotGreaterGreater;NotGreaterLess;NotGreaterSlantEqual;NotGreaterTilde;NotHumpDownHum\
    p;NotHumpEqual;NotLeftTriangle;NotLeftTriangleBar;NotLeftTriangleEqual;NotLess;NotLessEqual;NotLessGreater;NotLe\
    ssLess;NotLessSlantEqual;NotLessTilde;NotNestedGreaterGreater;NotNestedLessLess;NotPrecedes;NotPrecedesEqual;Not\
    PrecedesSlantEqual;NotReverseElement;NotRightTriangle;NotRightTriangleBar;NotRightTriangleEqual;NotSquareSubset;\
    NotSquareSubsetEqual;NotSquareSuperset;NotSquareSupersetEqual;NotSubset;NotSubsetEqual;NotSucceeds;NotSucceedsEq\
    ual;NotSucceedsSlantEqual;NotSucceedsTilde;NotSuperset;NotSupersetEqual;NotTilde;NotTildeEqual;NotTildeFullEqual\
    ;NotTildeTilde;NotVerticalBar;Nscr;Ntilde;Nu;OElig;Oacute;Ocirc;Ocy;Odblac;Ofr;Ograve;Omacr;Omega;Omicron;Oopf;O\
    penCurlyDoubleQuote;OpenCurlyQuote;Or;Oscr;Oslash;Otilde;Otimes;Ouml;OverBar;OverBrace;OverBracket;OverParenthes\
    is;PartialD;Pcy;Pfr;Phi;Pi;PlusMinus;Poincareplane;Popf;Pr;Precedes;PrecedesEqual;PrecedesSlantEqual;PrecedesTil\
    de;Prime;Product;Proportion;Proportional;Pscr;Psi;QUOT;Qfr;Qopf;Qscr;RBarr;REG;Racute;Rang;Rarr;Rarrtl;Rcaron;Rc\
    edil;Rcy;Re;ReverseElement;ReverseEquilibrium;ReverseUpEquilibrium;Rfr;Rho;RightAngleBracket;RightArrow;RightArr\
    owBar;RightArrowLeftArrow;RightCeiling;RightDoubleBracket;RightDownTeeVector;RightDownVector;RightDownVectorBar;\
    RightFloor;RightTee;RightTeeArrow;RightTeeVector;RightTriangle;RightTriangleBar;RightTriangleEqual;RightUpDownVe\
    ctor;RightUpTeeVector;RightUpVector;RightUpVectorBar;RightVector;RightVectorBar;Rightarrow;Ropf;RoundImplies;Rri\
    ghtarrow;Rscr;Rsh;RuleDelayed;SHCHcy;SHcy;SOFTcy;Sacute;Sc;Scaron;Scedil;Scirc;Scy;Sfr;ShortDownArrow;ShortLeftA\
    rrow;ShortRightArrow;ShortUpArrow;Sigma;SmallCircle;Sopf;Sqrt;Square;SquareIntersection;SquareSubset;SquareSubse\
    tEqual;SquareSuperset;SquareSupersetEqual;SquareUnion;Sscr;Star;Sub;Subset;SubsetEqual;Succeeds;SucceedsEqual;Su\
    cceedsSlantEqual;SucceedsTilde;SuchThat;Sum;Sup;Superset;SupersetEqual;Supset;THORN;TRADE;TSHcy;TScy;Tab;Tau;Tca\
    ron;Tcedil;Tcy;Tfr;Therefore;Theta;ThickSpace;ThinSpace;Tilde;TildeEqual;TildeFullEqual;TildeTilde;Topf;TripleDo\
    t;Tscr;Tstrok;Uacute;Uarr;Uarrocir;Ubrcy;Ubreve;Ucirc;Ucy;Udblac;Ufr;Ugrave;Umacr;UnderBar;UnderBrace;UnderBrack\
    et;UnderParenthesis;Union;UnionPlus;Uogon;Uopf;UpArrow;UpArrowBar;UpArrowDownArrow;UpDownArrow;UpEquilibrium;UpT\
    ee;UpTeeArrow;Uparrow;Updownarrow;UpperLeftArrow;UpperRightArrow;Upsi;Upsilon;Uring;Uscr;Utilde;Uuml;VDash;Vbar;\
    Vcy;Vdash;Vdashl;Vee;Verbar;Vert;VerticalBar;VerticalLine;VerticalSeparator;VerticalTilde;VeryThinSpace;Vfr;Vopf\
    ;Vscr;Vvdash;Wcirc;Wedge;Wfr;Wopf;Wscr;Xfr;Xi;Xopf;Xscr;YAcy;YIcy;YUcy;Yacute;Ycirc;Ycy;Yfr;Yopf;Yscr;Yuml;ZHcy;\
    Zacute;Zcaron;Zcy;Zdot;ZeroWidthSpace;Zeta;Zfr;Zopf;Zscr;aacute;abreve;ac;acE;acd;acirc;acute;acy;aelig;af;afr;a\
    grave;alefsym;aleph;alpha;amacr;amalg;amp;and;andand;andd;andslope;andv;ang;ange;angle;angmsd;angmsdaa;angmsdab;\
    angmsdac;angmsdad;angmsdae;angmsdaf;angmsdag;angmsdah;angrt;angrtvb;angrtvbd;angsph;angst;angzarr;aogon;aopf;ap;\
    apE;apacir;ape;apid;apos;approx;approxeq;aring;ascr;ast;asymp;asympeq;atilde;auml;awconint;awint;bNot;backcong;b\
    ackepsilon;backprime;backsim;backsimeq;barvee;barwed;barwedge;bbrk;bbrktbrk;bcong;bcy;bdquo;becaus;because;bempt\
    yv;bepsi;bernou;beta;beth;between;bfr;bigcap;bigcirc;bigcup;bigodot;bigoplus;bigotimes;bigsqcup;bigstar;bigtrian\
    gledown;bigtriangleup;biguplus;bigvee;bigwedge;bkarow;blacklozenge;blacksquare;blacktriangle;blacktriangledown;b\
    lacktriangleleft;blacktriangleright;blank;blk12;blk14;blk34;block;bne;bnequiv;bnot;bopf;bot;bottom;bowtie;boxDL;\
    boxDR;boxDl;boxDr;boxH;boxHD;boxHU;boxHd;boxHu;boxUL;boxUR;boxUl;boxUr;boxV;boxVH;boxVL;boxVR;boxVh;boxVl;boxVr;\
    boxbox;boxdL;boxdR;boxdl;boxdr;boxh;boxhD;boxhU;boxhd;boxhu;boxminus;boxplus;boxtimes;boxuL;boxuR;boxul;boxur;bo\
    xv;boxvH;boxvL;boxvR;boxvh;boxvl;boxvr;bprime;breve;brvbar;bscr;bsemi;bsim;bsime;bsol;bsolb;bsolhsub;bull;bullet\
    ;bump;bumpE;bumpe;bumpeq;cacute;cap;capand;capbrcup;capcap;capcup;capdot;caps;caret;caron;ccaps;ccaron;ccedil;cc\
    irc;ccups;ccupssm;cdot;cedil;cemptyv;cent;centerdot;cfr;chcy;check;checkmark;chi;cir;cirE;circ;circeq;circlearro\
    wleft;circlearrowright;circledR;circledS;circledast;circledcirc;circleddash;cire;cirfnint;cirmid;cirscir;clubs;c\
    lubsuit;colon;colone;coloneq;comma;commat;comp;compfn;complement;complexes;cong;congdot;conint;copf;coprod;copy;\
    copysr;crarr;cross;cscr;csub;csube;csup;csupe;ctdot;cudarrl;cudarrr;cuepr;cuesc;cularr;cularrp;cup;cupbrcap;cupc\
    ap;cupcup;cupdot;cupor;cups;curarr;curarrm;curlyeqprec;curlyeqsucc;curlyvee;curlywedge;curren;curvearrowleft;cur\
    vearrowright;cuvee;cuwed;cwconint;cwint;cylcty;dArr;dHar;dagger;daleth;darr;dash;dashv;dbkarow;dblac;dcaron;dcy;\
    dd;ddagger;ddarr;ddotseq;deg;delta;demptyv;dfisht;dfr;dharl;dharr;diam;diamond;diamondsuit;diams;die;digamma;dis\
    in;div;divide;divideontimes;divonx;djcy;dlcorn;dlcrop;dollar;dopf;dot;doteq;doteqdot;dotminus;dotplus;dotsquare;\
    doublebarwedge;downarrow;downdownarrows;downharpoonleft;downharpoonright;drbkarow;drcorn;drcrop;dscr;dscy;dsol;d\
    strok;dtdot;dtri;dtrif;duarr;duhar;dwangle;dzcy;dzigrarr;eDDot;eDot;eacute;easter;ecaron;ecir;ecirc;ecolon;ecy;e\
    dot;ee;efDot;efr;eg;egrave;egs;egsdot;el;elinters;ell;els;elsdot;emacr;empty;emptyset;emptyv;emsp;emsp13;emsp14;\
    eng;ensp;eogon;eopf;epar;eparsl;eplus;epsi;epsilon;epsiv;eqcirc;eqcolon;eqsim;eqslantgtr;eqslantless;equals;eque\
    st;equiv;equivDD;eqvparsl;erDot;erarr;escr;esdot;esim;eta;eth;euml;euro;excl;exist;expectation;exponentiale;fall\
    ingdotseq;fcy;female;ffilig;fflig;ffllig;ffr;filig;fjlig;flat;fllig;fltns;fnof;fopf;forall;fork;forkv;fpartint;f\
    rac12;frac13;frac14;frac15;frac16;frac18;frac23;frac25;frac34;frac35;frac38;frac45;frac56;frac58;frac78;frasl;fr\
    own;fscr;gE;gEl;gacute;gamma;gammad;gap;gbreve;gcirc;gcy;gdot;ge;gel;geq;geqq;geqslant;ges;gescc;gesdot;gesdoto;\
    gesdotol;gesl;gesles;gfr;gg;ggg;gimel;gjcy;gl;glE;gla;glj;gnE;gnap;gnapprox;gne;gneq;gneqq;gnsim;gopf;grave;gscr\
    ;gsim;gsime;gsiml;gt;gtcc;gtcir;gtdot;gtlPar;gtquest;gtrapprox;gtrarr;gtrdot;gtreqless;gtreqqless;gtrless;gtrsim\
    ;gvertneqq;gvnE;hArr;hairsp;half;hamilt;hardcy;harr;harrcir;harrw;hbar;hcirc;hearts;heartsuit;hellip;hercon;hfr;\
    hksearow;hkswarow;hoarr;homtht;hookleftarrow;hookrightarrow;hopf;horbar;hscr;hslash;hstrok;hybull;hyphen;iacute;\
    ic;icirc;icy;iecy;iexcl;iff;ifr;igrave;ii;iiiint;iiint;iinfin;iiota;ijlig;imacr;image;imagline;imagpart;imath;im\
    of;imped;in;incare;infin;infintie;inodot;int;intcal;integers;intercal;intlarhk;intprod;iocy;iogon;iopf;iota;ipro\
    d;iquest;iscr;isin;isinE;isindot;isins;isinsv;isinv;it;itilde;iukcy;iuml;jcirc;jcy;jfr;jmath;jopf;jscr;jsercy;ju\
    kcy;kappa;kappav;kcedil;kcy;kfr;kgreen;khcy;kjcy;kopf;kscr;lAarr;lArr;lAtail;lBarr;lE;lEg;lHar;lacute;laemptyv;l\
    agran;lambda;lang;langd;langle;lap;laquo;larr;larrb;larrbfs;larrfs;larrhk;larrlp;larrpl;larrsim;larrtl;lat;latai\
    l;late;lates;lbarr;lbbrk;lbrace;lbrack;lbrke;lbrksld;lbrkslu;lcaron;lcedil;lceil;lcub;lcy;ldca;ldquo;ldquor;ldrd\
    har;ldrushar;ldsh;le;leftarrow;leftarrowtail;leftharpoondown;leftharpoonup;leftleftarrows;leftrightarrow;leftrig\
    htarrows;leftrightharpoons;leftrightsquigarrow;leftthreetimes;leg;leq;leqq;leqslant;les;lescc;lesdot;lesdoto;les\
    dotor;lesg;lesges;lessapprox;lessdot;lesseqgtr;lesseqqgtr;lessgtr;lesssim;lfisht;lfloor;lfr;lg;lgE;lhard;lharu;l\
    harul;lhblk;ljcy;ll;llarr;llcorner;llhard;lltri;lmidot;lmoust;lmoustache;lnE;lnap;lnapprox;lne;lneq;lneqq;lnsim;\
    loang;loarr;lobrk;longleftarrow;longleftrightarrow;longmapsto;longrightarrow;looparrowleft;looparrowright;lopar;\
    lopf;loplus;lotimes;lowast;lowbar;loz;lozenge;lozf;lpar;lparlt;lrarr;lrcorner;lrhar;lrhard;lrm;lrtri;lsaquo;lscr\
    ;lsh;lsim;lsime;lsimg;lsqb;lsquo;lsquor;lstrok;lt;ltcc;ltcir;ltdot;lthree;ltimes;ltlarr;ltquest;ltrPar;ltri;ltri\
    e;ltrif;lurdshar;luruhar;lvertneqq;lvnE;mDDot;macr;male;malt;maltese;map;mapsto;mapstodown;mapstoleft;mapstoup;m\
    arker;mcomma;mcy;mdash;measuredangle;mfr;mho;micro;mid;midast;midcir;middot;minus;minusb;minusd;minusdu;mlcp;mld\
    r;mnplus;models;mopf;mp;mscr;mstpos;mu;multimap;mumap;nGg;nGt;nGtv;nLeftarrow;nLeftrightarrow;nLl;nLt;nLtv;nRigh\
    tarrow;nVDash;nVdash;nabla;nacute;nang;nap;napE;napid;napos;napprox;natur;natural;naturals;nbsp;nbump;nbumpe;nca\
    p;ncaron;ncedil;ncong;ncongdot;ncup;ncy;ndash;ne;neArr;nearhk;nearr;nearrow;nedot;nequiv;nesear;nesim;nexist;nex\
    ists;nfr;ngE;nge;ngeq;ngeqq;ngeqslant;nges;ngsim;ngt;ngtr;nhArr;nharr;nhpar;ni;nis;nisd;niv;njcy;nlArr;nlE;nlarr\
    ;nldr;nle;nleftarrow;nleftrightarrow;nleq;nleqq;nleqslant;nles;nless;nlsim;nlt;nltri;nltrie;nmid;nopf;not;notin;\
    notinE;notindot;notinva;notinvb;notinvc;notni;notniva;notnivb;notnivc;npar;nparallel;nparsl;npart;npolint;npr;np\
    rcue;npre;nprec;npreceq;nrArr;nrarr;nrarrc;nrarrw;nrightarrow;nrtri;nrtrie;nsc;nsccue;nsce;nscr;nshortmid;nshort\
    parallel;nsim;nsime;nsimeq;nsmid;nspar;nsqsube;nsqsupe;nsub;nsubE;nsube;nsubset;nsubseteq;nsubseteqq;nsucc;nsucc\
    eq;nsup;nsupE;nsupe;nsupset;nsupseteq;nsupseteqq;ntgl;ntilde;ntlg;ntriangleleft;ntrianglelefteq;ntriangleright;n\
    trianglerighteq;nu;num;numero;numsp;nvDash;nvHarr;nvap;nvdash;nvge;nvgt;nvinfin;nvlArr;nvle;nvlt;nvltrie;nvrArr;\
    nvrtrie;nvsim;nwArr;nwarhk;nwarr;nwarrow;nwnear;oS;oacute;oast;ocir;ocirc;ocy;odash;odblac;odiv;odot;odsold;oeli\
    g;ofcir;ofr;ogon;ograve;ogt;ohbar;ohm;oint;olarr;olcir;olcross;oline;olt;omacr;omega;omicron;omid;ominus;oopf;op\
    ar;operp;oplus;or;orarr;ord;order;orderof;ordf;ordm;origof;oror;orslope;orv;oscr;oslash;osol;otilde;otimes;otime\
    sas;ouml;ovbar;par;para;parallel;parsim;parsl;part;pcy;percnt;period;permil;perp;pertenk;pfr;phi;phiv;phmmat;pho\
    ne;pi;pitchfork;piv;planck;planckh;plankv;plus;plusacir;plusb;pluscir;plusdo;plusdu;pluse;plusmn;plussim;plustwo\
    ;pm;pointint;popf;pound;pr;prE;prap;prcue;pre;prec;precapprox;preccurlyeq;preceq;precnapprox;precneqq;precnsim;p\
    recsim;prime;primes;prnE;prnap;prnsim;prod;profalar;profline;profsurf;prop;propto;prsim;prurel;pscr;psi;puncsp;q\
    fr;qint;qopf;qprime;qscr;quaternions;quatint;quest;questeq;quot;rAarr;rArr;rAtail;rBarr;rHar;race;racute;radic;r\
    aemptyv;rang;rangd;range;rangle;raquo;rarr;rarrap;rarrb;rarrbfs;rarrc;rarrfs;rarrhk;rarrlp;rarrpl;rarrsim;rarrtl\
    ;rarrw;ratail;ratio;rationals;rbarr;rbbrk;rbrace;rbrack;rbrke;rbrksld;rbrkslu;rcaron;rcedil;rceil;rcub;rcy;rdca;\
    rdldhar;rdquo;rdquor;rdsh;real;realine;realpart;reals;rect;reg;rfisht;rfloor;rfr;rhard;rharu;rharul;rho;rhov;rig\
    htarrow;rightarrowtail;rightharpoondown;rightharpoonup;rightleftarrows;rightleftharpoons;rightrightarrows;rights\
    quigarrow;rightthreetimes;ring;risingdotseq;rlarr;rlhar;rlm;rmoust;rmoustache;rnmid;roang;roarr;robrk;ropar;ropf\
    ;roplus;rotimes;rpar;rpargt;rppolint;rrarr;rsaquo;rscr;rsh;rsqb;rsquo;rsquor;rthree;rtimes;rtri;rtrie;rtrif;rtri\
    ltri;ruluhar;rx;sacute;sbquo;sc;scE;scap;scaron;sccue;sce;scedil;scirc;scnE;scnap;scnsim;scpolint;scsim;scy;sdot\
    ;sdotb;sdote;seArr;searhk;searr;searrow;sect;semi;seswar;setminus;setmn;sext;sfr;sfrown;sharp;shchcy;shcy;shortm\
    id;shortparallel;shy;sigma;sigmaf;sigmav;sim;simdot;sime;simeq;simg;simgE;siml;simlE;simne;simplus;simrarr;slarr\
    ;smallsetminus;smashp;smeparsl;smid;smile;smt;smte;smtes;softcy;sol;solb;solbar;sopf;spades;spadesuit;spar;sqcap\
    ;sqcaps;sqcup;sqcups;sqsub;sqsube;sqsubset;sqsubseteq;sqsup;sqsupe;sqsupset;sqsupseteq;squ;square;squarf;squf;sr\
    arr;sscr;ssetmn;ssmile;sstarf;star;starf;straightepsilon;straightphi;strns;sub;subE;subdot;sube;subedot;submult;\
    subnE;subne;subplus;subrarr;subset;subseteq;subseteqq;subsetneq;subsetneqq;subsim;subsub;subsup;succ;succapprox;\
    succcurlyeq;succeq;succnapprox;succneqq;succnsim;succsim;sum;sung;sup;sup1;sup2;sup3;supE;supdot;supdsub;supe;su\
    pedot;suphsol;suphsub;suplarr;supmult;supnE;supne;supplus;supset;supseteq;supseteqq;supsetneq;supsetneqq;supsim;\
    supsub;supsup;swArr;swarhk;swarr;swarrow;swnwar;szlig;target;tau;tbrk;tcaron;tcedil;tcy;tdot;telrec;tfr;there4;t\
    herefore;theta;thetasym;thetav;thickapprox;thicksim;thinsp;thkap;thksim;thorn;tilde;times;timesb;timesbar;timesd\
    ;tint;toea;top;topbot;topcir;topf;topfork;tosa;tprime;trade;triangle;triangledown;triangleleft;trianglelefteq;tr\
    iangleq;triangleright;trianglerighteq;tridot;trie;triminus;triplus;trisb;tritime;trpezium;tscr;tscy;tshcy;tstrok\
    ;twixt;twoheadleftarrow;twoheadrightarrow;uArr;uHar;uacute;uarr;ubrcy;ubreve;ucirc;ucy;udarr;udblac;udhar;ufisht\
    ;ufr;ugrave;uharl;uharr;uhblk;ulcorn;ulcorner;ulcrop;ultri;umacr;uml;uogon;uopf;uparrow;updownarrow;upharpoonlef\
    t;upharpoonright;uplus;upsi;upsih;upsilon;upuparrows;urcorn;urcorner;urcrop;uring;urtri;uscr;utdot;utilde;utri;u\
    trif;uuarr;uuml;uwangle;vArr;vBar;vBarv;vDash;vangrt;varepsilon;varkappa;varnothing;varphi;varpi;varpropto;varr;\
    varrho;varsigma;varsubsetneq;varsubsetneqq;varsupsetneq;varsupsetneqq;vartheta;vartriangleleft;vartriangleright;\
    vcy;vdash;vee;veebar;veeeq;vellip;verbar;vert;vfr;vltri;vnsub;vnsup;vopf;vprop;vrtri;vscr;vsubnE;vsubne;vsupnE;v\
    supne;vzigzag;wcirc;wedbar;wedge;wedgeq;weierp;wfr;wopf;wp;wr;wreath;wscr;xcap;xcirc;xcup;xdtri;xfr;xhArr;xharr;\
    xi;xlArr;xlarr;xmap;xnis;xodot;xopf;xoplus;xotime;xrArr;xrarr;xscr;xsqcup;xuplus;xutri;xvee;xwedge;yacute;yacy;y\
    circ;ycy;yen;yfr;yicy;yopf;yscr;yucy;yuml;zacute;zcaron;zcy;zdot;zeetrf;zeta;zfr;zhcy;zigrarr;zopf;zscr;zwj;zwnj";

/// Where each name starts in `NAMES`.
#[rattlefmt::skip]
pub(crate) static STARTS: [u16; 2125] = [
    0, 6, 10, 17, 24, 30, 34, 38, 45, 51, 57, 61, 67, 72, 86, 92, 97, 104, 111, 116, 126, 131, 138, 142, 150, 161,
    166, 170, 175, 181, 186, 193, 198, 203, 210, 214, 235, 243, 250, 257, 263, 271, 276, 284, 294, 298, 302, 312,
    324, 335, 347, 372, 394, 410, 416, 423, 433, 440, 456, 461, 471, 503, 509, 514, 518, 525, 528, 537, 542, 547,
    552, 559, 564, 570, 577, 581, 585, 591, 595, 612, 627, 650, 667, 684, 692, 706, 711, 715, 722, 731, 753, 763,
    779, 795, 816, 830, 850, 875, 896, 913, 928, 942, 960, 978, 988, 1001, 1018, 1028, 1048, 1066, 1081, 1099, 1118,
    1134, 1153, 1161, 1174, 1184, 1189, 1196, 1200, 1204, 1211, 1218, 1224, 1228, 1233, 1237, 1244, 1252, 1258,
    1275, 1296, 1302, 1307, 1315, 1321, 1332, 1344, 1349, 1354, 1358, 1363, 1370, 1383, 1387, 1391, 1409, 1431,
    1436, 1443, 1454, 1459, 1464, 1467, 1473, 1480, 1487, 1494, 1500, 1504, 1509, 1513, 1516, 1521, 1534, 1551,
    1568, 1583, 1595, 1613, 1626, 1631, 1634, 1641, 1647, 1651, 1657, 1661, 1674, 1679, 1694, 1699, 1706, 1719,
    1729, 1734, 1740, 1745, 1752, 1758, 1762, 1767, 1771, 1778, 1781, 1787, 1798, 1806, 1810, 1819, 1832, 1847,
    1862, 1868, 1873, 1878, 1883, 1890, 1896, 1901, 1907, 1911, 1915, 1920, 1925, 1932, 1938, 1943, 1948, 1954,
    1961, 1965, 1969, 1974, 1979, 1984, 1987, 1994, 2001, 2006, 2017, 2022, 2029, 2036, 2040, 2057, 2067, 2080,
    2100, 2112, 2130, 2148, 2163, 2181, 2191, 2206, 2222, 2230, 2243, 2257, 2270, 2286, 2304, 2321, 2337, 2350,
    2366, 2377, 2391, 2401, 2416, 2433, 2447, 2459, 2468, 2483, 2493, 2497, 2500, 2511, 2518, 2532, 2551, 2566,
    2580, 2599, 2614, 2619, 2634, 2650, 2655, 2659, 2666, 2669, 2673, 2677, 2689, 2699, 2703, 2713, 2718, 2723,
    2726, 2731, 2738, 2745, 2752, 2756, 2776, 2795, 2813, 2835, 2856, 2871, 2879, 2883, 2891, 2908, 2913, 2917,
    2930, 2940, 2961, 2972, 2981, 2995, 3005, 3016, 3032, 3052, 3070, 3085, 3106, 3122, 3138, 3151, 3167, 3186,
    3207, 3215, 3228, 3243, 3255, 3273, 3286, 3310, 3328, 3340, 3357, 3379, 3397, 3414, 3434, 3456, 3472, 3493,
    3511, 3534, 3544, 3559, 3571, 3588, 3610, 3627, 3639, 3656, 3665, 3679, 3697, 3711, 3726, 3731, 3738, 3741,
    3747, 3754, 3760, 3764, 3771, 3775, 3782, 3788, 3794, 3802, 3807, 3828, 3843, 3846, 3851, 3858, 3865, 3872,
    3877, 3885, 3895, 3907, 3923, 3932, 3936, 3940, 3944, 3947, 3957, 3971, 3976, 3979, 3988, 4002, 4021, 4035,
    4041, 4049, 4060, 4073, 4078, 4082, 4087, 4091, 4096, 4101, 4107, 4111, 4118, 4123, 4128, 4135, 4142, 4149,
    4153, 4156, 4171, 4190, 4211, 4215, 4219, 4237, 4248, 4262, 4282, 4295, 4314, 4333, 4349, 4368, 4379, 4388,
    4402, 4417, 4431, 4448, 4467, 4485, 4502, 4516, 4533, 4545, 4560, 4571, 4576, 4589, 4601, 4606, 4610, 4622,
    4629, 4634, 4641, 4648, 4651, 4658, 4665, 4671, 4675, 4679, 4694, 4709, 4725, 4738, 4744, 4756, 4761, 4766,
    4773, 4792, 4805, 4823, 4838, 4858, 4870, 4875, 4880, 4884, 4891, 4903, 4912, 4926, 4945, 4959, 4968, 4972,
    4976, 4985, 4999, 5006, 5012, 5018, 5024, 5029, 5033, 5037, 5044, 5051, 5055, 5059, 5069, 5075, 5086, 5096,
    5102, 5113, 5128, 5139, 5144, 5154, 5159, 5166, 5173, 5178, 5187, 5193, 5200, 5206, 5210, 5217, 5221, 5228,
    5234, 5243, 5254, 5267, 5284, 5290, 5300, 5306, 5311, 5319, 5330, 5347, 5359, 5373, 5379, 5390, 5398, 5410,
    5425, 5441, 5446, 5454, 5460, 5465, 5472, 5477, 5483, 5488, 5492, 5498, 5505, 5509, 5516, 5521, 5533, 5546,
    5564, 5578, 5592, 5596, 5601, 5606, 5613, 5619, 5625, 5629, 5634, 5639, 5643, 5646, 5651, 5656, 5661, 5666,
    5671, 5678, 5684, 5688, 5692, 5697, 5702, 5707, 5712, 5719, 5726, 5730, 5735, 5750, 5755, 5759, 5764, 5769,
    5776, 5783, 5786, 5790, 5794, 5800, 5806, 5810, 5816, 5819, 5823, 5830, 5838, 5844, 5850, 5856, 5862, 5866,
    5870, 5877, 5882, 5891, 5896, 5900, 5905, 5911, 5918, 5927, 5936, 5945, 5954, 5963, 5972, 5981, 5990, 5996,
    6004, 6013, 6020, 6026, 6034, 6040, 6045, 6048, 6052, 6059, 6063, 6068, 6073, 6080, 6089, 6095, 6100, 6104,
    6110, 6118, 6125, 6130, 6139, 6145, 6150, 6159, 6171, 6181, 6189, 6199, 6206, 6213, 6222, 6227, 6236, 6242,
    6246, 6252, 6259, 6267, 6275, 6281, 6288, 6293, 6298, 6306, 6310, 6317, 6325, 6332, 6340, 6349, 6359, 6368,
    6376, 6392, 6406, 6415, 6422, 6431, 6438, 6451, 6463, 6477, 6495, 6513, 6532, 6538, 6544, 6550, 6556, 6562,
    6566, 6574, 6579, 6584, 6588, 6595, 6602, 6608, 6614, 6620, 6626, 6631, 6637, 6643, 6649, 6655, 6661, 6667,
    6673, 6679, 6684, 6690, 6696, 6702, 6708, 6714, 6720, 6727, 6733, 6739, 6745, 6751, 6756, 6762, 6768, 6774,
    6780, 6789, 6797, 6806, 6812, 6818, 6824, 6830, 6835, 6841, 6847, 6853, 6859, 6865, 6871, 6878, 6884, 6891,
    6896, 6902, 6907, 6913, 6918, 6924, 6933, 6938, 6945, 6950, 6956, 6962, 6969, 6976, 6980, 6987, 6996, 7003,
    7010, 7017, 7022, 7028, 7034, 7040, 7047, 7054, 7060, 7066, 7074, 7079, 7085, 7093, 7098, 7108, 7112, 7117,
    7123, 7133, 7137, 7141, 7146, 7151, 7158, 7174, 7191, 7200, 7209, 7220, 7232, 7244, 7249, 7258, 7265, 7273,
    7279, 7288, 7294, 7301, 7309, 7315, 7322, 7327, 7334, 7345, 7355, 7360, 7368, 7375, 7380, 7387, 7392, 7399,
    7405, 7411, 7416, 7421, 7427, 7432, 7438, 7444, 7452, 7460, 7466, 7472, 7479, 7487, 7491, 7500, 7507, 7514,
    7521, 7527, 7532, 7539, 7547, 7559, 7571, 7580, 7591, 7598, 7613, 7629, 7635, 7641, 7650, 7656, 7663, 7668,
    7673, 7680, 7687, 7692, 7697, 7703, 7711, 7717, 7724, 7728, 7731, 7739, 7745, 7753, 7757, 7763, 7771, 7778,
    7782, 7788, 7794, 7799, 7807, 7819, 7825, 7829, 7837, 7843, 7847, 7854, 7868, 7875, 7880, 7887, 7894, 7901,
    7906, 7910, 7916, 7925, 7934, 7942, 7952, 7967, 7977, 7992, 8008, 8025, 8034, 8041, 8048, 8053, 8058, 8063,
    8070, 8076, 8081, 8087, 8093, 8099, 8107, 8112, 8121, 8127, 8132, 8139, 8146, 8153, 8158, 8164, 8171, 8175,
    8180, 8183, 8189, 8193, 8196, 8203, 8207, 8214, 8217, 8226, 8230, 8234, 8241, 8247, 8253, 8262, 8269, 8274,
    8281, 8288, 8292, 8297, 8303, 8308, 8313, 8320, 8326, 8331, 8339, 8345, 8352, 8360, 8366, 8377, 8389, 8396,
    8403, 8409, 8417, 8426, 8432, 8438, 8443, 8449, 8454, 8458, 8462, 8467, 8472, 8477, 8483, 8495, 8508, 8522,
    8526, 8533, 8540, 8546, 8553, 8557, 8563, 8569, 8574, 8580, 8586, 8591, 8596, 8603, 8608, 8614, 8623, 8630,
    8637, 8644, 8651, 8658, 8665, 8672, 8679, 8686, 8693, 8700, 8707, 8714, 8721, 8728, 8734, 8740, 8745, 8748,
    8752, 8759, 8765, 8772, 8776, 8783, 8789, 8793, 8798, 8801, 8805, 8809, 8814, 8823, 8827, 8833, 8840, 8848,
    8857, 8862, 8869, 8873, 8876, 8880, 8886, 8891, 8894, 8898, 8902, 8906, 8910, 8915, 8924, 8928, 8933, 8939,
    8945, 8950, 8956, 8961, 8966, 8972, 8978, 8981, 8986, 8992, 8998, 9005, 9013, 9023, 9030, 9037, 9047, 9058,
    9066, 9073, 9083, 9088, 9093, 9100, 9105, 9112, 9119, 9124, 9132, 9138, 9143, 9149, 9156, 9166, 9173, 9180,
    9184, 9193, 9202, 9208, 9215, 9229, 9244, 9249, 9256, 9261, 9268, 9275, 9282, 9289, 9296, 9299, 9305, 9309,
    9314, 9320, 9324, 9328, 9335, 9338, 9345, 9351, 9358, 9364, 9370, 9376, 9382, 9391, 9400, 9406, 9411, 9417,
    9420, 9427, 9433, 9442, 9449, 9453, 9460, 9469, 9478, 9487, 9495, 9500, 9506, 9511, 9516, 9522, 9529, 9534,
    9539, 9545, 9553, 9559, 9566, 9572, 9575, 9582, 9588, 9593, 9599, 9603, 9607, 9613, 9618, 9623, 9630, 9636,
    9642, 9649, 9656, 9660, 9664, 9671, 9676, 9681, 9686, 9691, 9697, 9702, 9709, 9715, 9718, 9722, 9727, 9734,
    9743, 9750, 9757, 9762, 9768, 9775, 9779, 9785, 9790, 9796, 9804, 9811, 9818, 9825, 9832, 9840, 9847, 9851,
    9858, 9863, 9869, 9875, 9881, 9888, 9895, 9901, 9909, 9917, 9924, 9931, 9937, 9942, 9946, 9951, 9957, 9964,
    9972, 9981, 9986, 9989, 9999, 10013, 10029, 10043, 10058, 10073, 10089, 10107, 10127, 10142, 10146, 10150,
    10155, 10164, 10168, 10174, 10181, 10189, 10198, 10203, 10210, 10221, 10229, 10239, 10250, 10258, 10266, 10273,
    10280, 10284, 10287, 10291, 10297, 10303, 10310, 10316, 10321, 10324, 10330, 10339, 10346, 10352, 10359, 10366,
    10377, 10381, 10386, 10395, 10399, 10404, 10410, 10416, 10422, 10428, 10434, 10448, 10467, 10478, 10493, 10507,
    10522, 10528, 10533, 10540, 10548, 10555, 10562, 10566, 10574, 10579, 10584, 10591, 10597, 10606, 10612, 10619,
    10623, 10629, 10636, 10641, 10645, 10650, 10656, 10662, 10667, 10673, 10680, 10687, 10690, 10695, 10701, 10707,
    10714, 10721, 10728, 10736, 10743, 10748, 10754, 10760, 10769, 10777, 10787, 10792, 10798, 10803, 10808, 10813,
    10821, 10825, 10832, 10843, 10854, 10863, 10870, 10877, 10881, 10887, 10901, 10905, 10909, 10915, 10919, 10926,
    10933, 10940, 10946, 10953, 10960, 10968, 10973, 10978, 10985, 10992, 10997, 11000, 11005, 11012, 11015, 11024,
    11030, 11034, 11038, 11043, 11054, 11070, 11074, 11078, 11083, 11095, 11102, 11109, 11115, 11122, 11127, 11131,
    11136, 11142, 11148, 11156, 11162, 11170, 11179, 11184, 11190, 11197, 11202, 11209, 11216, 11222, 11231, 11236,
    11240, 11246, 11249, 11255, 11262, 11268, 11276, 11282, 11289, 11296, 11302, 11309, 11317, 11321, 11325, 11329,
    11334, 11340, 11350, 11355, 11361, 11365, 11370, 11376, 11382, 11388, 11391, 11395, 11400, 11404, 11409, 11415,
    11419, 11425, 11430, 11434, 11445, 11461, 11466, 11472, 11482, 11487, 11493, 11499, 11503, 11509, 11516, 11521,
    11526, 11530, 11536, 11543, 11552, 11560, 11568, 11576, 11582, 11590, 11598, 11606, 11611, 11621, 11628, 11634,
    11642, 11646, 11653, 11658, 11664, 11672, 11678, 11684, 11691, 11698, 11710, 11716, 11723, 11727, 11734, 11739,
    11744, 11754, 11769, 11774, 11780, 11787, 11793, 11799, 11807, 11815, 11820, 11826, 11832, 11840, 11850, 11861,
    11867, 11875, 11880, 11886, 11892, 11900, 11910, 11921, 11926, 11933, 11938, 11952, 11968, 11983, 12000, 12003,
    12007, 12014, 12020, 12027, 12034, 12039, 12046, 12051, 12056, 12064, 12071, 12076, 12081, 12089, 12096, 12104,
    12110, 12116, 12123, 12129, 12137, 12144, 12147, 12154, 12159, 12164, 12170, 12174, 12180, 12187, 12192, 12197,
    12204, 12210, 12216, 12220, 12225, 12232, 12236, 12242, 12246, 12251, 12257, 12263, 12271, 12277, 12281, 12287,
    12293, 12301, 12306, 12313, 12318, 12323, 12329, 12335, 12338, 12344, 12348, 12354, 12362, 12367, 12372, 12379,
    12384, 12392, 12396, 12401, 12408, 12413, 12420, 12427, 12436, 12441, 12447, 12451, 12456, 12465, 12472, 12478,
    12483, 12487, 12494, 12501, 12508, 12513, 12521, 12525, 12529, 12534, 12541, 12547, 12550, 12560, 12564, 12571,
    12579, 12586, 12591, 12600, 12606, 12614, 12621, 12628, 12634, 12641, 12649, 12657, 12660, 12669, 12674, 12680,
    12683, 12687, 12692, 12698, 12702, 12707, 12718, 12730, 12737, 12749, 12758, 12767, 12775, 12781, 12788, 12793,
    12799, 12806, 12811, 12820, 12829, 12838, 12843, 12850, 12856, 12863, 12868, 12872, 12879, 12883, 12888, 12893,
    12900, 12905, 12917, 12925, 12931, 12939, 12944, 12950, 12955, 12962, 12968, 12973, 12978, 12985, 12991, 13000,
    13005, 13011, 13017, 13024, 13030, 13035, 13042, 13048, 13056, 13062, 13069, 13076, 13083, 13090, 13098, 13105,
    13111, 13118, 13124, 13134, 13140, 13146, 13153, 13160, 13166, 13174, 13182, 13189, 13196, 13202, 13207, 13211,
    13216, 13224, 13230, 13237, 13242, 13247, 13255, 13264, 13270, 13275, 13279, 13286, 13293, 13297, 13303, 13309,
    13316, 13320, 13325, 13336, 13351, 13368, 13383, 13399, 13417, 13434, 13450, 13466, 13471, 13484, 13490, 13496,
    13500, 13507, 13518, 13524, 13530, 13536, 13542, 13548, 13553, 13560, 13568, 13573, 13580, 13589, 13595, 13602,
    13607, 13611, 13616, 13622, 13629, 13636, 13643, 13648, 13654, 13660, 13669, 13677, 13680, 13687, 13693, 13696,
    13700, 13705, 13712, 13718, 13722, 13729, 13735, 13740, 13746, 13753, 13762, 13768, 13772, 13777, 13783, 13789,
    13795, 13802, 13808, 13816, 13821, 13826, 13833, 13842, 13848, 13853, 13857, 13864, 13870, 13877, 13882, 13891,
    13905, 13909, 13915, 13922, 13929, 13933, 13940, 13945, 13951, 13956, 13962, 13967, 13973, 13979, 13987, 13995,
    14001, 14015, 14022, 14031, 14036, 14042, 14046, 14051, 14057, 14064, 14068, 14073, 14080, 14085, 14092, 14102,
    14107, 14113, 14120, 14126, 14133, 14139, 14146, 14155, 14166, 14172, 14179, 14188, 14199, 14203, 14210, 14217,
    14222, 14228, 14233, 14240, 14247, 14254, 14259, 14265, 14281, 14293, 14299, 14303, 14308, 14315, 14320, 14328,
    14336, 14342, 14348, 14356, 14364, 14371, 14380, 14390, 14400, 14411, 14418, 14425, 14432, 14437, 14448, 14460,
    14467, 14479, 14488, 14497, 14505, 14509, 14514, 14518, 14523, 14528, 14533, 14538, 14545, 14553, 14558, 14566,
    14574, 14582, 14590, 14598, 14604, 14610, 14618, 14625, 14634, 14644, 14654, 14665, 14672, 14679, 14686, 14692,
    14699, 14705, 14713, 14720, 14726, 14733, 14737, 14742, 14749, 14756, 14760, 14765, 14772, 14776, 14783, 14793,
    14799, 14808, 14815, 14827, 14836, 14843, 14849, 14856, 14862, 14868, 14874, 14881, 14890, 14897, 14902, 14907,
    14911, 14918, 14925, 14930, 14938, 14943, 14950, 14956, 14965, 14978, 14991, 15006, 15016, 15030, 15046, 15053,
    15058, 15067, 15075, 15081, 15089, 15098, 15103, 15108, 15114, 15121, 15127, 15144, 15162, 15167, 15172, 15179,
    15184, 15190, 15197, 15203, 15207, 15213, 15220, 15226, 15233, 15237, 15244, 15250, 15256, 15262, 15269, 15278,
    15285, 15291, 15297, 15301, 15307, 15312, 15320, 15332, 15346, 15361, 15367, 15372, 15378, 15386, 15397, 15404,
    15413, 15420, 15426, 15432, 15437, 15443, 15450, 15455, 15461, 15467, 15472, 15480, 15485, 15490, 15496, 15502,
    15509, 15520, 15529, 15540, 15547, 15553, 15563, 15568, 15575, 15584, 15597, 15611, 15624, 15638, 15647, 15663,
    15680, 15684, 15690, 15694, 15701, 15707, 15714, 15721, 15726, 15730, 15736, 15742, 15748, 15753, 15759, 15765,
    15770, 15777, 15784, 15791, 15798, 15806, 15812, 15819, 15825, 15832, 15839, 15843, 15848, 15851, 15854, 15861,
    15866, 15871, 15877, 15882, 15888, 15892, 15898, 15904, 15907, 15913, 15919, 15924, 15929, 15935, 15940, 15947,
    15954, 15960, 15966, 15971, 15978, 15985, 15991, 15996, 16003, 16010, 16015, 16021, 16025, 16029, 16033, 16038,
    16043, 16048, 16053, 16058, 16065, 16072, 16076, 16081, 16088, 16093, 16097, 16102, 16110, 16115, 16120, 16124,
];

/// The first character of each.
#[rattlefmt::skip]
pub(crate) static FIRST: [char; 2125] = [
    '\u{c6}', '\u{26}', '\u{c1}', '\u{102}', '\u{c2}', '\u{410}', '\u{1d504}', '\u{c0}', '\u{391}', '\u{100}',
    '\u{2a53}', '\u{104}', '\u{1d538}', '\u{2061}', '\u{c5}', '\u{1d49c}', '\u{2254}', '\u{c3}', '\u{c4}',
    '\u{2216}', '\u{2ae7}', '\u{2306}', '\u{411}', '\u{2235}', '\u{212c}', '\u{392}', '\u{1d505}', '\u{1d539}',
    '\u{2d8}', '\u{212c}', '\u{224e}', '\u{427}', '\u{a9}', '\u{106}', '\u{22d2}', '\u{2145}', '\u{212d}',
    '\u{10c}', '\u{c7}', '\u{108}', '\u{2230}', '\u{10a}', '\u{b8}', '\u{b7}', '\u{212d}', '\u{3a7}', '\u{2299}',
    '\u{2296}', '\u{2295}', '\u{2297}', '\u{2232}', '\u{201d}', '\u{2019}', '\u{2237}', '\u{2a74}', '\u{2261}',
    '\u{222f}', '\u{222e}', '\u{2102}', '\u{2210}', '\u{2233}', '\u{2a2f}', '\u{1d49e}', '\u{22d3}', '\u{224d}',
    '\u{2145}', '\u{2911}', '\u{402}', '\u{405}', '\u{40f}', '\u{2021}', '\u{21a1}', '\u{2ae4}', '\u{10e}',
    '\u{414}', '\u{2207}', '\u{394}', '\u{1d507}', '\u{b4}', '\u{2d9}', '\u{2dd}', '\u{60}', '\u{2dc}', '\u{22c4}',
    '\u{2146}', '\u{1d53b}', '\u{a8}', '\u{20dc}', '\u{2250}', '\u{222f}', '\u{a8}', '\u{21d3}', '\u{21d0}',
    '\u{21d4}', '\u{2ae4}', '\u{27f8}', '\u{27fa}', '\u{27f9}', '\u{21d2}', '\u{22a8}', '\u{21d1}', '\u{21d5}',
    '\u{2225}', '\u{2193}', '\u{2913}', '\u{21f5}', '\u{311}', '\u{2950}', '\u{295e}', '\u{21bd}', '\u{2956}',
    '\u{295f}', '\u{21c1}', '\u{2957}', '\u{22a4}', '\u{21a7}', '\u{21d3}', '\u{1d49f}', '\u{110}', '\u{14a}',
    '\u{d0}', '\u{c9}', '\u{11a}', '\u{ca}', '\u{42d}', '\u{116}', '\u{1d508}', '\u{c8}', '\u{2208}', '\u{112}',
    '\u{25fb}', '\u{25ab}', '\u{118}', '\u{1d53c}', '\u{395}', '\u{2a75}', '\u{2242}', '\u{21cc}', '\u{2130}',
    '\u{2a73}', '\u{397}', '\u{cb}', '\u{2203}', '\u{2147}', '\u{424}', '\u{1d509}', '\u{25fc}', '\u{25aa}',
    '\u{1d53d}', '\u{2200}', '\u{2131}', '\u{2131}', '\u{403}', '\u{3e}', '\u{393}', '\u{3dc}', '\u{11e}',
    '\u{122}', '\u{11c}', '\u{413}', '\u{120}', '\u{1d50a}', '\u{22d9}', '\u{1d53e}', '\u{2265}', '\u{22db}',
    '\u{2267}', '\u{2aa2}', '\u{2277}', '\u{2a7e}', '\u{2273}', '\u{1d4a2}', '\u{226b}', '\u{42a}', '\u{2c7}',
    '\u{5e}', '\u{124}', '\u{210c}', '\u{210b}', '\u{210d}', '\u{2500}', '\u{210b}', '\u{126}', '\u{224e}',
    '\u{224f}', '\u{415}', '\u{132}', '\u{401}', '\u{cd}', '\u{ce}', '\u{418}', '\u{130}', '\u{2111}', '\u{cc}',
    '\u{2111}', '\u{12a}', '\u{2148}', '\u{21d2}', '\u{222c}', '\u{222b}', '\u{22c2}', '\u{2063}', '\u{2062}',
    '\u{12e}', '\u{1d540}', '\u{399}', '\u{2110}', '\u{128}', '\u{406}', '\u{cf}', '\u{134}', '\u{419}',
    '\u{1d50d}', '\u{1d541}', '\u{1d4a5}', '\u{408}', '\u{404}', '\u{425}', '\u{40c}', '\u{39a}', '\u{136}',
    '\u{41a}', '\u{1d50e}', '\u{1d542}', '\u{1d4a6}', '\u{409}', '\u{3c}', '\u{139}', '\u{39b}', '\u{27ea}',
    '\u{2112}', '\u{219e}', '\u{13d}', '\u{13b}', '\u{41b}', '\u{27e8}', '\u{2190}', '\u{21e4}', '\u{21c6}',
    '\u{2308}', '\u{27e6}', '\u{2961}', '\u{21c3}', '\u{2959}', '\u{230a}', '\u{2194}', '\u{294e}', '\u{22a3}',
    '\u{21a4}', '\u{295a}', '\u{22b2}', '\u{29cf}', '\u{22b4}', '\u{2951}', '\u{2960}', '\u{21bf}', '\u{2958}',
    '\u{21bc}', '\u{2952}', '\u{21d0}', '\u{21d4}', '\u{22da}', '\u{2266}', '\u{2276}', '\u{2aa1}', '\u{2a7d}',
    '\u{2272}', '\u{1d50f}', '\u{22d8}', '\u{21da}', '\u{13f}', '\u{27f5}', '\u{27f7}', '\u{27f6}', '\u{27f8}',
    '\u{27fa}', '\u{27f9}', '\u{1d543}', '\u{2199}', '\u{2198}', '\u{2112}', '\u{21b0}', '\u{141}', '\u{226a}',
    '\u{2905}', '\u{41c}', '\u{205f}', '\u{2133}', '\u{1d510}', '\u{2213}', '\u{1d544}', '\u{2133}', '\u{39c}',
    '\u{40a}', '\u{143}', '\u{147}', '\u{145}', '\u{41d}', '\u{200b}', '\u{200b}', '\u{200b}', '\u{200b}',
    '\u{226b}', '\u{226a}', '\u{a}', '\u{1d511}', '\u{2060}', '\u{a0}', '\u{2115}', '\u{2aec}', '\u{2262}',
    '\u{226d}', '\u{2226}', '\u{2209}', '\u{2260}', '\u{2242}', '\u{2204}', '\u{226f}', '\u{2271}', '\u{2267}',
    '\u{226b}', '\u{2279}', '\u{2a7e}', '\u{2275}', '\u{224e}', '\u{224f}', '\u{22ea}', '\u{29cf}', '\u{22ec}',
    '\u{226e}', '\u{2270}', '\u{2278}', '\u{226a}', '\u{2a7d}', '\u{2274}', '\u{2aa2}', '\u{2aa1}', '\u{2280}',
    '\u{2aaf}', '\u{22e0}', '\u{220c}', '\u{22eb}', '\u{29d0}', '\u{22ed}', '\u{228f}', '\u{22e2}', '\u{2290}',
    '\u{22e3}', '\u{2282}', '\u{2288}', '\u{2281}', '\u{2ab0}', '\u{22e1}', '\u{227f}', '\u{2283}', '\u{2289}',
    '\u{2241}', '\u{2244}', '\u{2247}', '\u{2249}', '\u{2224}', '\u{1d4a9}', '\u{d1}', '\u{39d}', '\u{152}',
    '\u{d3}', '\u{d4}', '\u{41e}', '\u{150}', '\u{1d512}', '\u{d2}', '\u{14c}', '\u{3a9}', '\u{39f}', '\u{1d546}',
    '\u{201c}', '\u{2018}', '\u{2a54}', '\u{1d4aa}', '\u{d8}', '\u{d5}', '\u{2a37}', '\u{d6}', '\u{203e}',
    '\u{23de}', '\u{23b4}', '\u{23dc}', '\u{2202}', '\u{41f}', '\u{1d513}', '\u{3a6}', '\u{3a0}', '\u{b1}',
    '\u{210c}', '\u{2119}', '\u{2abb}', '\u{227a}', '\u{2aaf}', '\u{227c}', '\u{227e}', '\u{2033}', '\u{220f}',
    '\u{2237}', '\u{221d}', '\u{1d4ab}', '\u{3a8}', '\u{22}', '\u{1d514}', '\u{211a}', '\u{1d4ac}', '\u{2910}',
    '\u{ae}', '\u{154}', '\u{27eb}', '\u{21a0}', '\u{2916}', '\u{158}', '\u{156}', '\u{420}', '\u{211c}',
    '\u{220b}', '\u{21cb}', '\u{296f}', '\u{211c}', '\u{3a1}', '\u{27e9}', '\u{2192}', '\u{21e5}', '\u{21c4}',
    '\u{2309}', '\u{27e7}', '\u{295d}', '\u{21c2}', '\u{2955}', '\u{230b}', '\u{22a2}', '\u{21a6}', '\u{295b}',
    '\u{22b3}', '\u{29d0}', '\u{22b5}', '\u{294f}', '\u{295c}', '\u{21be}', '\u{2954}', '\u{21c0}', '\u{2953}',
    '\u{21d2}', '\u{211d}', '\u{2970}', '\u{21db}', '\u{211b}', '\u{21b1}', '\u{29f4}', '\u{429}', '\u{428}',
    '\u{42c}', '\u{15a}', '\u{2abc}', '\u{160}', '\u{15e}', '\u{15c}', '\u{421}', '\u{1d516}', '\u{2193}',
    '\u{2190}', '\u{2192}', '\u{2191}', '\u{3a3}', '\u{2218}', '\u{1d54a}', '\u{221a}', '\u{25a1}', '\u{2293}',
    '\u{228f}', '\u{2291}', '\u{2290}', '\u{2292}', '\u{2294}', '\u{1d4ae}', '\u{22c6}', '\u{22d0}', '\u{22d0}',
    '\u{2286}', '\u{227b}', '\u{2ab0}', '\u{227d}', '\u{227f}', '\u{220b}', '\u{2211}', '\u{22d1}', '\u{2283}',
    '\u{2287}', '\u{22d1}', '\u{de}', '\u{2122}', '\u{40b}', '\u{426}', '\u{9}', '\u{3a4}', '\u{164}', '\u{162}',
    '\u{422}', '\u{1d517}', '\u{2234}', '\u{398}', '\u{205f}', '\u{2009}', '\u{223c}', '\u{2243}', '\u{2245}',
    '\u{2248}', '\u{1d54b}', '\u{20db}', '\u{1d4af}', '\u{166}', '\u{da}', '\u{219f}', '\u{2949}', '\u{40e}',
    '\u{16c}', '\u{db}', '\u{423}', '\u{170}', '\u{1d518}', '\u{d9}', '\u{16a}', '\u{5f}', '\u{23df}', '\u{23b5}',
    '\u{23dd}', '\u{22c3}', '\u{228e}', '\u{172}', '\u{1d54c}', '\u{2191}', '\u{2912}', '\u{21c5}', '\u{2195}',
    '\u{296e}', '\u{22a5}', '\u{21a5}', '\u{21d1}', '\u{21d5}', '\u{2196}', '\u{2197}', '\u{3d2}', '\u{3a5}',
    '\u{16e}', '\u{1d4b0}', '\u{168}', '\u{dc}', '\u{22ab}', '\u{2aeb}', '\u{412}', '\u{22a9}', '\u{2ae6}',
    '\u{22c1}', '\u{2016}', '\u{2016}', '\u{2223}', '\u{7c}', '\u{2758}', '\u{2240}', '\u{200a}', '\u{1d519}',
    '\u{1d54d}', '\u{1d4b1}', '\u{22aa}', '\u{174}', '\u{22c0}', '\u{1d51a}', '\u{1d54e}', '\u{1d4b2}', '\u{1d51b}',
    '\u{39e}', '\u{1d54f}', '\u{1d4b3}', '\u{42f}', '\u{407}', '\u{42e}', '\u{dd}', '\u{176}', '\u{42b}',
    '\u{1d51c}', '\u{1d550}', '\u{1d4b4}', '\u{178}', '\u{416}', '\u{179}', '\u{17d}', '\u{417}', '\u{17b}',
    '\u{200b}', '\u{396}', '\u{2128}', '\u{2124}', '\u{1d4b5}', '\u{e1}', '\u{103}', '\u{223e}', '\u{223e}',
    '\u{223f}', '\u{e2}', '\u{b4}', '\u{430}', '\u{e6}', '\u{2061}', '\u{1d51e}', '\u{e0}', '\u{2135}', '\u{2135}',
    '\u{3b1}', '\u{101}', '\u{2a3f}', '\u{26}', '\u{2227}', '\u{2a55}', '\u{2a5c}', '\u{2a58}', '\u{2a5a}',
    '\u{2220}', '\u{29a4}', '\u{2220}', '\u{2221}', '\u{29a8}', '\u{29a9}', '\u{29aa}', '\u{29ab}', '\u{29ac}',
    '\u{29ad}', '\u{29ae}', '\u{29af}', '\u{221f}', '\u{22be}', '\u{299d}', '\u{2222}', '\u{c5}', '\u{237c}',
    '\u{105}', '\u{1d552}', '\u{2248}', '\u{2a70}', '\u{2a6f}', '\u{224a}', '\u{224b}', '\u{27}', '\u{2248}',
    '\u{224a}', '\u{e5}', '\u{1d4b6}', '\u{2a}', '\u{2248}', '\u{224d}', '\u{e3}', '\u{e4}', '\u{2233}', '\u{2a11}',
    '\u{2aed}', '\u{224c}', '\u{3f6}', '\u{2035}', '\u{223d}', '\u{22cd}', '\u{22bd}', '\u{2305}', '\u{2305}',
    '\u{23b5}', '\u{23b6}', '\u{224c}', '\u{431}', '\u{201e}', '\u{2235}', '\u{2235}', '\u{29b0}', '\u{3f6}',
    '\u{212c}', '\u{3b2}', '\u{2136}', '\u{226c}', '\u{1d51f}', '\u{22c2}', '\u{25ef}', '\u{22c3}', '\u{2a00}',
    '\u{2a01}', '\u{2a02}', '\u{2a06}', '\u{2605}', '\u{25bd}', '\u{25b3}', '\u{2a04}', '\u{22c1}', '\u{22c0}',
    '\u{290d}', '\u{29eb}', '\u{25aa}', '\u{25b4}', '\u{25be}', '\u{25c2}', '\u{25b8}', '\u{2423}', '\u{2592}',
    '\u{2591}', '\u{2593}', '\u{2588}', '\u{3d}', '\u{2261}', '\u{2310}', '\u{1d553}', '\u{22a5}', '\u{22a5}',
    '\u{22c8}', '\u{2557}', '\u{2554}', '\u{2556}', '\u{2553}', '\u{2550}', '\u{2566}', '\u{2569}', '\u{2564}',
    '\u{2567}', '\u{255d}', '\u{255a}', '\u{255c}', '\u{2559}', '\u{2551}', '\u{256c}', '\u{2563}', '\u{2560}',
    '\u{256b}', '\u{2562}', '\u{255f}', '\u{29c9}', '\u{2555}', '\u{2552}', '\u{2510}', '\u{250c}', '\u{2500}',
    '\u{2565}', '\u{2568}', '\u{252c}', '\u{2534}', '\u{229f}', '\u{229e}', '\u{22a0}', '\u{255b}', '\u{2558}',
    '\u{2518}', '\u{2514}', '\u{2502}', '\u{256a}', '\u{2561}', '\u{255e}', '\u{253c}', '\u{2524}', '\u{251c}',
    '\u{2035}', '\u{2d8}', '\u{a6}', '\u{1d4b7}', '\u{204f}', '\u{223d}', '\u{22cd}', '\u{5c}', '\u{29c5}',
    '\u{27c8}', '\u{2022}', '\u{2022}', '\u{224e}', '\u{2aae}', '\u{224f}', '\u{224f}', '\u{107}', '\u{2229}',
    '\u{2a44}', '\u{2a49}', '\u{2a4b}', '\u{2a47}', '\u{2a40}', '\u{2229}', '\u{2041}', '\u{2c7}', '\u{2a4d}',
    '\u{10d}', '\u{e7}', '\u{109}', '\u{2a4c}', '\u{2a50}', '\u{10b}', '\u{b8}', '\u{29b2}', '\u{a2}', '\u{b7}',
    '\u{1d520}', '\u{447}', '\u{2713}', '\u{2713}', '\u{3c7}', '\u{25cb}', '\u{29c3}', '\u{2c6}', '\u{2257}',
    '\u{21ba}', '\u{21bb}', '\u{ae}', '\u{24c8}', '\u{229b}', '\u{229a}', '\u{229d}', '\u{2257}', '\u{2a10}',
    '\u{2aef}', '\u{29c2}', '\u{2663}', '\u{2663}', '\u{3a}', '\u{2254}', '\u{2254}', '\u{2c}', '\u{40}',
    '\u{2201}', '\u{2218}', '\u{2201}', '\u{2102}', '\u{2245}', '\u{2a6d}', '\u{222e}', '\u{1d554}', '\u{2210}',
    '\u{a9}', '\u{2117}', '\u{21b5}', '\u{2717}', '\u{1d4b8}', '\u{2acf}', '\u{2ad1}', '\u{2ad0}', '\u{2ad2}',
    '\u{22ef}', '\u{2938}', '\u{2935}', '\u{22de}', '\u{22df}', '\u{21b6}', '\u{293d}', '\u{222a}', '\u{2a48}',
    '\u{2a46}', '\u{2a4a}', '\u{228d}', '\u{2a45}', '\u{222a}', '\u{21b7}', '\u{293c}', '\u{22de}', '\u{22df}',
    '\u{22ce}', '\u{22cf}', '\u{a4}', '\u{21b6}', '\u{21b7}', '\u{22ce}', '\u{22cf}', '\u{2232}', '\u{2231}',
    '\u{232d}', '\u{21d3}', '\u{2965}', '\u{2020}', '\u{2138}', '\u{2193}', '\u{2010}', '\u{22a3}', '\u{290f}',
    '\u{2dd}', '\u{10f}', '\u{434}', '\u{2146}', '\u{2021}', '\u{21ca}', '\u{2a77}', '\u{b0}', '\u{3b4}',
    '\u{29b1}', '\u{297f}', '\u{1d521}', '\u{21c3}', '\u{21c2}', '\u{22c4}', '\u{22c4}', '\u{2666}', '\u{2666}',
    '\u{a8}', '\u{3dd}', '\u{22f2}', '\u{f7}', '\u{f7}', '\u{22c7}', '\u{22c7}', '\u{452}', '\u{231e}', '\u{230d}',
    '\u{24}', '\u{1d555}', '\u{2d9}', '\u{2250}', '\u{2251}', '\u{2238}', '\u{2214}', '\u{22a1}', '\u{2306}',
    '\u{2193}', '\u{21ca}', '\u{21c3}', '\u{21c2}', '\u{2910}', '\u{231f}', '\u{230c}', '\u{1d4b9}', '\u{455}',
    '\u{29f6}', '\u{111}', '\u{22f1}', '\u{25bf}', '\u{25be}', '\u{21f5}', '\u{296f}', '\u{29a6}', '\u{45f}',
    '\u{27ff}', '\u{2a77}', '\u{2251}', '\u{e9}', '\u{2a6e}', '\u{11b}', '\u{2256}', '\u{ea}', '\u{2255}',
    '\u{44d}', '\u{117}', '\u{2147}', '\u{2252}', '\u{1d522}', '\u{2a9a}', '\u{e8}', '\u{2a96}', '\u{2a98}',
    '\u{2a99}', '\u{23e7}', '\u{2113}', '\u{2a95}', '\u{2a97}', '\u{113}', '\u{2205}', '\u{2205}', '\u{2205}',
    '\u{2003}', '\u{2004}', '\u{2005}', '\u{14b}', '\u{2002}', '\u{119}', '\u{1d556}', '\u{22d5}', '\u{29e3}',
    '\u{2a71}', '\u{3b5}', '\u{3b5}', '\u{3f5}', '\u{2256}', '\u{2255}', '\u{2242}', '\u{2a96}', '\u{2a95}',
    '\u{3d}', '\u{225f}', '\u{2261}', '\u{2a78}', '\u{29e5}', '\u{2253}', '\u{2971}', '\u{212f}', '\u{2250}',
    '\u{2242}', '\u{3b7}', '\u{f0}', '\u{eb}', '\u{20ac}', '\u{21}', '\u{2203}', '\u{2130}', '\u{2147}', '\u{2252}',
    '\u{444}', '\u{2640}', '\u{fb03}', '\u{fb00}', '\u{fb04}', '\u{1d523}', '\u{fb01}', '\u{66}', '\u{266d}',
    '\u{fb02}', '\u{25b1}', '\u{192}', '\u{1d557}', '\u{2200}', '\u{22d4}', '\u{2ad9}', '\u{2a0d}', '\u{bd}',
    '\u{2153}', '\u{bc}', '\u{2155}', '\u{2159}', '\u{215b}', '\u{2154}', '\u{2156}', '\u{be}', '\u{2157}',
    '\u{215c}', '\u{2158}', '\u{215a}', '\u{215d}', '\u{215e}', '\u{2044}', '\u{2322}', '\u{1d4bb}', '\u{2267}',
    '\u{2a8c}', '\u{1f5}', '\u{3b3}', '\u{3dd}', '\u{2a86}', '\u{11f}', '\u{11d}', '\u{433}', '\u{121}', '\u{2265}',
    '\u{22db}', '\u{2265}', '\u{2267}', '\u{2a7e}', '\u{2a7e}', '\u{2aa9}', '\u{2a80}', '\u{2a82}', '\u{2a84}',
    '\u{22db}', '\u{2a94}', '\u{1d524}', '\u{226b}', '\u{22d9}', '\u{2137}', '\u{453}', '\u{2277}', '\u{2a92}',
    '\u{2aa5}', '\u{2aa4}', '\u{2269}', '\u{2a8a}', '\u{2a8a}', '\u{2a88}', '\u{2a88}', '\u{2269}', '\u{22e7}',
    '\u{1d558}', '\u{60}', '\u{210a}', '\u{2273}', '\u{2a8e}', '\u{2a90}', '\u{3e}', '\u{2aa7}', '\u{2a7a}',
    '\u{22d7}', '\u{2995}', '\u{2a7c}', '\u{2a86}', '\u{2978}', '\u{22d7}', '\u{22db}', '\u{2a8c}', '\u{2277}',
    '\u{2273}', '\u{2269}', '\u{2269}', '\u{21d4}', '\u{200a}', '\u{bd}', '\u{210b}', '\u{44a}', '\u{2194}',
    '\u{2948}', '\u{21ad}', '\u{210f}', '\u{125}', '\u{2665}', '\u{2665}', '\u{2026}', '\u{22b9}', '\u{1d525}',
    '\u{2925}', '\u{2926}', '\u{21ff}', '\u{223b}', '\u{21a9}', '\u{21aa}', '\u{1d559}', '\u{2015}', '\u{1d4bd}',
    '\u{210f}', '\u{127}', '\u{2043}', '\u{2010}', '\u{ed}', '\u{2063}', '\u{ee}', '\u{438}', '\u{435}', '\u{a1}',
    '\u{21d4}', '\u{1d526}', '\u{ec}', '\u{2148}', '\u{2a0c}', '\u{222d}', '\u{29dc}', '\u{2129}', '\u{133}',
    '\u{12b}', '\u{2111}', '\u{2110}', '\u{2111}', '\u{131}', '\u{22b7}', '\u{1b5}', '\u{2208}', '\u{2105}',
    '\u{221e}', '\u{29dd}', '\u{131}', '\u{222b}', '\u{22ba}', '\u{2124}', '\u{22ba}', '\u{2a17}', '\u{2a3c}',
    '\u{451}', '\u{12f}', '\u{1d55a}', '\u{3b9}', '\u{2a3c}', '\u{bf}', '\u{1d4be}', '\u{2208}', '\u{22f9}',
    '\u{22f5}', '\u{22f4}', '\u{22f3}', '\u{2208}', '\u{2062}', '\u{129}', '\u{456}', '\u{ef}', '\u{135}',
    '\u{439}', '\u{1d527}', '\u{237}', '\u{1d55b}', '\u{1d4bf}', '\u{458}', '\u{454}', '\u{3ba}', '\u{3f0}',
    '\u{137}', '\u{43a}', '\u{1d528}', '\u{138}', '\u{445}', '\u{45c}', '\u{1d55c}', '\u{1d4c0}', '\u{21da}',
    '\u{21d0}', '\u{291b}', '\u{290e}', '\u{2266}', '\u{2a8b}', '\u{2962}', '\u{13a}', '\u{29b4}', '\u{2112}',
    '\u{3bb}', '\u{27e8}', '\u{2991}', '\u{27e8}', '\u{2a85}', '\u{ab}', '\u{2190}', '\u{21e4}', '\u{291f}',
    '\u{291d}', '\u{21a9}', '\u{21ab}', '\u{2939}', '\u{2973}', '\u{21a2}', '\u{2aab}', '\u{2919}', '\u{2aad}',
    '\u{2aad}', '\u{290c}', '\u{2772}', '\u{7b}', '\u{5b}', '\u{298b}', '\u{298f}', '\u{298d}', '\u{13e}',
    '\u{13c}', '\u{2308}', '\u{7b}', '\u{43b}', '\u{2936}', '\u{201c}', '\u{201e}', '\u{2967}', '\u{294b}',
    '\u{21b2}', '\u{2264}', '\u{2190}', '\u{21a2}', '\u{21bd}', '\u{21bc}', '\u{21c7}', '\u{2194}', '\u{21c6}',
    '\u{21cb}', '\u{21ad}', '\u{22cb}', '\u{22da}', '\u{2264}', '\u{2266}', '\u{2a7d}', '\u{2a7d}', '\u{2aa8}',
    '\u{2a7f}', '\u{2a81}', '\u{2a83}', '\u{22da}', '\u{2a93}', '\u{2a85}', '\u{22d6}', '\u{22da}', '\u{2a8b}',
    '\u{2276}', '\u{2272}', '\u{297c}', '\u{230a}', '\u{1d529}', '\u{2276}', '\u{2a91}', '\u{21bd}', '\u{21bc}',
    '\u{296a}', '\u{2584}', '\u{459}', '\u{226a}', '\u{21c7}', '\u{231e}', '\u{296b}', '\u{25fa}', '\u{140}',
    '\u{23b0}', '\u{23b0}', '\u{2268}', '\u{2a89}', '\u{2a89}', '\u{2a87}', '\u{2a87}', '\u{2268}', '\u{22e6}',
    '\u{27ec}', '\u{21fd}', '\u{27e6}', '\u{27f5}', '\u{27f7}', '\u{27fc}', '\u{27f6}', '\u{21ab}', '\u{21ac}',
    '\u{2985}', '\u{1d55d}', '\u{2a2d}', '\u{2a34}', '\u{2217}', '\u{5f}', '\u{25ca}', '\u{25ca}', '\u{29eb}',
    '\u{28}', '\u{2993}', '\u{21c6}', '\u{231f}', '\u{21cb}', '\u{296d}', '\u{200e}', '\u{22bf}', '\u{2039}',
    '\u{1d4c1}', '\u{21b0}', '\u{2272}', '\u{2a8d}', '\u{2a8f}', '\u{5b}', '\u{2018}', '\u{201a}', '\u{142}',
    '\u{3c}', '\u{2aa6}', '\u{2a79}', '\u{22d6}', '\u{22cb}', '\u{22c9}', '\u{2976}', '\u{2a7b}', '\u{2996}',
    '\u{25c3}', '\u{22b4}', '\u{25c2}', '\u{294a}', '\u{2966}', '\u{2268}', '\u{2268}', '\u{223a}', '\u{af}',
    '\u{2642}', '\u{2720}', '\u{2720}', '\u{21a6}', '\u{21a6}', '\u{21a7}', '\u{21a4}', '\u{21a5}', '\u{25ae}',
    '\u{2a29}', '\u{43c}', '\u{2014}', '\u{2221}', '\u{1d52a}', '\u{2127}', '\u{b5}', '\u{2223}', '\u{2a}',
    '\u{2af0}', '\u{b7}', '\u{2212}', '\u{229f}', '\u{2238}', '\u{2a2a}', '\u{2adb}', '\u{2026}', '\u{2213}',
    '\u{22a7}', '\u{1d55e}', '\u{2213}', '\u{1d4c2}', '\u{223e}', '\u{3bc}', '\u{22b8}', '\u{22b8}', '\u{22d9}',
    '\u{226b}', '\u{226b}', '\u{21cd}', '\u{21ce}', '\u{22d8}', '\u{226a}', '\u{226a}', '\u{21cf}', '\u{22af}',
    '\u{22ae}', '\u{2207}', '\u{144}', '\u{2220}', '\u{2249}', '\u{2a70}', '\u{224b}', '\u{149}', '\u{2249}',
    '\u{266e}', '\u{266e}', '\u{2115}', '\u{a0}', '\u{224e}', '\u{224f}', '\u{2a43}', '\u{148}', '\u{146}',
    '\u{2247}', '\u{2a6d}', '\u{2a42}', '\u{43d}', '\u{2013}', '\u{2260}', '\u{21d7}', '\u{2924}', '\u{2197}',
    '\u{2197}', '\u{2250}', '\u{2262}', '\u{2928}', '\u{2242}', '\u{2204}', '\u{2204}', '\u{1d52b}', '\u{2267}',
    '\u{2271}', '\u{2271}', '\u{2267}', '\u{2a7e}', '\u{2a7e}', '\u{2275}', '\u{226f}', '\u{226f}', '\u{21ce}',
    '\u{21ae}', '\u{2af2}', '\u{220b}', '\u{22fc}', '\u{22fa}', '\u{220b}', '\u{45a}', '\u{21cd}', '\u{2266}',
    '\u{219a}', '\u{2025}', '\u{2270}', '\u{219a}', '\u{21ae}', '\u{2270}', '\u{2266}', '\u{2a7d}', '\u{2a7d}',
    '\u{226e}', '\u{2274}', '\u{226e}', '\u{22ea}', '\u{22ec}', '\u{2224}', '\u{1d55f}', '\u{ac}', '\u{2209}',
    '\u{22f9}', '\u{22f5}', '\u{2209}', '\u{22f7}', '\u{22f6}', '\u{220c}', '\u{220c}', '\u{22fe}', '\u{22fd}',
    '\u{2226}', '\u{2226}', '\u{2afd}', '\u{2202}', '\u{2a14}', '\u{2280}', '\u{22e0}', '\u{2aaf}', '\u{2280}',
    '\u{2aaf}', '\u{21cf}', '\u{219b}', '\u{2933}', '\u{219d}', '\u{219b}', '\u{22eb}', '\u{22ed}', '\u{2281}',
    '\u{22e1}', '\u{2ab0}', '\u{1d4c3}', '\u{2224}', '\u{2226}', '\u{2241}', '\u{2244}', '\u{2244}', '\u{2224}',
    '\u{2226}', '\u{22e2}', '\u{22e3}', '\u{2284}', '\u{2ac5}', '\u{2288}', '\u{2282}', '\u{2288}', '\u{2ac5}',
    '\u{2281}', '\u{2ab0}', '\u{2285}', '\u{2ac6}', '\u{2289}', '\u{2283}', '\u{2289}', '\u{2ac6}', '\u{2279}',
    '\u{f1}', '\u{2278}', '\u{22ea}', '\u{22ec}', '\u{22eb}', '\u{22ed}', '\u{3bd}', '\u{23}', '\u{2116}',
    '\u{2007}', '\u{22ad}', '\u{2904}', '\u{224d}', '\u{22ac}', '\u{2265}', '\u{3e}', '\u{29de}', '\u{2902}',
    '\u{2264}', '\u{3c}', '\u{22b4}', '\u{2903}', '\u{22b5}', '\u{223c}', '\u{21d6}', '\u{2923}', '\u{2196}',
    '\u{2196}', '\u{2927}', '\u{24c8}', '\u{f3}', '\u{229b}', '\u{229a}', '\u{f4}', '\u{43e}', '\u{229d}',
    '\u{151}', '\u{2a38}', '\u{2299}', '\u{29bc}', '\u{153}', '\u{29bf}', '\u{1d52c}', '\u{2db}', '\u{f2}',
    '\u{29c1}', '\u{29b5}', '\u{3a9}', '\u{222e}', '\u{21ba}', '\u{29be}', '\u{29bb}', '\u{203e}', '\u{29c0}',
    '\u{14d}', '\u{3c9}', '\u{3bf}', '\u{29b6}', '\u{2296}', '\u{1d560}', '\u{29b7}', '\u{29b9}', '\u{2295}',
    '\u{2228}', '\u{21bb}', '\u{2a5d}', '\u{2134}', '\u{2134}', '\u{aa}', '\u{ba}', '\u{22b6}', '\u{2a56}',
    '\u{2a57}', '\u{2a5b}', '\u{2134}', '\u{f8}', '\u{2298}', '\u{f5}', '\u{2297}', '\u{2a36}', '\u{f6}',
    '\u{233d}', '\u{2225}', '\u{b6}', '\u{2225}', '\u{2af3}', '\u{2afd}', '\u{2202}', '\u{43f}', '\u{25}', '\u{2e}',
    '\u{2030}', '\u{22a5}', '\u{2031}', '\u{1d52d}', '\u{3c6}', '\u{3d5}', '\u{2133}', '\u{260e}', '\u{3c0}',
    '\u{22d4}', '\u{3d6}', '\u{210f}', '\u{210e}', '\u{210f}', '\u{2b}', '\u{2a23}', '\u{229e}', '\u{2a22}',
    '\u{2214}', '\u{2a25}', '\u{2a72}', '\u{b1}', '\u{2a26}', '\u{2a27}', '\u{b1}', '\u{2a15}', '\u{1d561}',
    '\u{a3}', '\u{227a}', '\u{2ab3}', '\u{2ab7}', '\u{227c}', '\u{2aaf}', '\u{227a}', '\u{2ab7}', '\u{227c}',
    '\u{2aaf}', '\u{2ab9}', '\u{2ab5}', '\u{22e8}', '\u{227e}', '\u{2032}', '\u{2119}', '\u{2ab5}', '\u{2ab9}',
    '\u{22e8}', '\u{220f}', '\u{232e}', '\u{2312}', '\u{2313}', '\u{221d}', '\u{221d}', '\u{227e}', '\u{22b0}',
    '\u{1d4c5}', '\u{3c8}', '\u{2008}', '\u{1d52e}', '\u{2a0c}', '\u{1d562}', '\u{2057}', '\u{1d4c6}', '\u{210d}',
    '\u{2a16}', '\u{3f}', '\u{225f}', '\u{22}', '\u{21db}', '\u{21d2}', '\u{291c}', '\u{290f}', '\u{2964}',
    '\u{223d}', '\u{155}', '\u{221a}', '\u{29b3}', '\u{27e9}', '\u{2992}', '\u{29a5}', '\u{27e9}', '\u{bb}',
    '\u{2192}', '\u{2975}', '\u{21e5}', '\u{2920}', '\u{2933}', '\u{291e}', '\u{21aa}', '\u{21ac}', '\u{2945}',
    '\u{2974}', '\u{21a3}', '\u{219d}', '\u{291a}', '\u{2236}', '\u{211a}', '\u{290d}', '\u{2773}', '\u{7d}',
    '\u{5d}', '\u{298c}', '\u{298e}', '\u{2990}', '\u{159}', '\u{157}', '\u{2309}', '\u{7d}', '\u{440}', '\u{2937}',
    '\u{2969}', '\u{201d}', '\u{201d}', '\u{21b3}', '\u{211c}', '\u{211b}', '\u{211c}', '\u{211d}', '\u{25ad}',
    '\u{ae}', '\u{297d}', '\u{230b}', '\u{1d52f}', '\u{21c1}', '\u{21c0}', '\u{296c}', '\u{3c1}', '\u{3f1}',
    '\u{2192}', '\u{21a3}', '\u{21c1}', '\u{21c0}', '\u{21c4}', '\u{21cc}', '\u{21c9}', '\u{219d}', '\u{22cc}',
    '\u{2da}', '\u{2253}', '\u{21c4}', '\u{21cc}', '\u{200f}', '\u{23b1}', '\u{23b1}', '\u{2aee}', '\u{27ed}',
    '\u{21fe}', '\u{27e7}', '\u{2986}', '\u{1d563}', '\u{2a2e}', '\u{2a35}', '\u{29}', '\u{2994}', '\u{2a12}',
    '\u{21c9}', '\u{203a}', '\u{1d4c7}', '\u{21b1}', '\u{5d}', '\u{2019}', '\u{2019}', '\u{22cc}', '\u{22ca}',
    '\u{25b9}', '\u{22b5}', '\u{25b8}', '\u{29ce}', '\u{2968}', '\u{211e}', '\u{15b}', '\u{201a}', '\u{227b}',
    '\u{2ab4}', '\u{2ab8}', '\u{161}', '\u{227d}', '\u{2ab0}', '\u{15f}', '\u{15d}', '\u{2ab6}', '\u{2aba}',
    '\u{22e9}', '\u{2a13}', '\u{227f}', '\u{441}', '\u{22c5}', '\u{22a1}', '\u{2a66}', '\u{21d8}', '\u{2925}',
    '\u{2198}', '\u{2198}', '\u{a7}', '\u{3b}', '\u{2929}', '\u{2216}', '\u{2216}', '\u{2736}', '\u{1d530}',
    '\u{2322}', '\u{266f}', '\u{449}', '\u{448}', '\u{2223}', '\u{2225}', '\u{ad}', '\u{3c3}', '\u{3c2}', '\u{3c2}',
    '\u{223c}', '\u{2a6a}', '\u{2243}', '\u{2243}', '\u{2a9e}', '\u{2aa0}', '\u{2a9d}', '\u{2a9f}', '\u{2246}',
    '\u{2a24}', '\u{2972}', '\u{2190}', '\u{2216}', '\u{2a33}', '\u{29e4}', '\u{2223}', '\u{2323}', '\u{2aaa}',
    '\u{2aac}', '\u{2aac}', '\u{44c}', '\u{2f}', '\u{29c4}', '\u{233f}', '\u{1d564}', '\u{2660}', '\u{2660}',
    '\u{2225}', '\u{2293}', '\u{2293}', '\u{2294}', '\u{2294}', '\u{228f}', '\u{2291}', '\u{228f}', '\u{2291}',
    '\u{2290}', '\u{2292}', '\u{2290}', '\u{2292}', '\u{25a1}', '\u{25a1}', '\u{25aa}', '\u{25aa}', '\u{2192}',
    '\u{1d4c8}', '\u{2216}', '\u{2323}', '\u{22c6}', '\u{2606}', '\u{2605}', '\u{3f5}', '\u{3d5}', '\u{af}',
    '\u{2282}', '\u{2ac5}', '\u{2abd}', '\u{2286}', '\u{2ac3}', '\u{2ac1}', '\u{2acb}', '\u{228a}', '\u{2abf}',
    '\u{2979}', '\u{2282}', '\u{2286}', '\u{2ac5}', '\u{228a}', '\u{2acb}', '\u{2ac7}', '\u{2ad5}', '\u{2ad3}',
    '\u{227b}', '\u{2ab8}', '\u{227d}', '\u{2ab0}', '\u{2aba}', '\u{2ab6}', '\u{22e9}', '\u{227f}', '\u{2211}',
    '\u{266a}', '\u{2283}', '\u{b9}', '\u{b2}', '\u{b3}', '\u{2ac6}', '\u{2abe}', '\u{2ad8}', '\u{2287}',
    '\u{2ac4}', '\u{27c9}', '\u{2ad7}', '\u{297b}', '\u{2ac2}', '\u{2acc}', '\u{228b}', '\u{2ac0}', '\u{2283}',
    '\u{2287}', '\u{2ac6}', '\u{228b}', '\u{2acc}', '\u{2ac8}', '\u{2ad4}', '\u{2ad6}', '\u{21d9}', '\u{2926}',
    '\u{2199}', '\u{2199}', '\u{292a}', '\u{df}', '\u{2316}', '\u{3c4}', '\u{23b4}', '\u{165}', '\u{163}',
    '\u{442}', '\u{20db}', '\u{2315}', '\u{1d531}', '\u{2234}', '\u{2234}', '\u{3b8}', '\u{3d1}', '\u{3d1}',
    '\u{2248}', '\u{223c}', '\u{2009}', '\u{2248}', '\u{223c}', '\u{fe}', '\u{2dc}', '\u{d7}', '\u{22a0}',
    '\u{2a31}', '\u{2a30}', '\u{222d}', '\u{2928}', '\u{22a4}', '\u{2336}', '\u{2af1}', '\u{1d565}', '\u{2ada}',
    '\u{2929}', '\u{2034}', '\u{2122}', '\u{25b5}', '\u{25bf}', '\u{25c3}', '\u{22b4}', '\u{225c}', '\u{25b9}',
    '\u{22b5}', '\u{25ec}', '\u{225c}', '\u{2a3a}', '\u{2a39}', '\u{29cd}', '\u{2a3b}', '\u{23e2}', '\u{1d4c9}',
    '\u{446}', '\u{45b}', '\u{167}', '\u{226c}', '\u{219e}', '\u{21a0}', '\u{21d1}', '\u{2963}', '\u{fa}',
    '\u{2191}', '\u{45e}', '\u{16d}', '\u{fb}', '\u{443}', '\u{21c5}', '\u{171}', '\u{296e}', '\u{297e}',
    '\u{1d532}', '\u{f9}', '\u{21bf}', '\u{21be}', '\u{2580}', '\u{231c}', '\u{231c}', '\u{230f}', '\u{25f8}',
    '\u{16b}', '\u{a8}', '\u{173}', '\u{1d566}', '\u{2191}', '\u{2195}', '\u{21bf}', '\u{21be}', '\u{228e}',
    '\u{3c5}', '\u{3d2}', '\u{3c5}', '\u{21c8}', '\u{231d}', '\u{231d}', '\u{230e}', '\u{16f}', '\u{25f9}',
    '\u{1d4ca}', '\u{22f0}', '\u{169}', '\u{25b5}', '\u{25b4}', '\u{21c8}', '\u{fc}', '\u{29a7}', '\u{21d5}',
    '\u{2ae8}', '\u{2ae9}', '\u{22a8}', '\u{299c}', '\u{3f5}', '\u{3f0}', '\u{2205}', '\u{3d5}', '\u{3d6}',
    '\u{221d}', '\u{2195}', '\u{3f1}', '\u{3c2}', '\u{228a}', '\u{2acb}', '\u{228b}', '\u{2acc}', '\u{3d1}',
    '\u{22b2}', '\u{22b3}', '\u{432}', '\u{22a2}', '\u{2228}', '\u{22bb}', '\u{225a}', '\u{22ee}', '\u{7c}',
    '\u{7c}', '\u{1d533}', '\u{22b2}', '\u{2282}', '\u{2283}', '\u{1d567}', '\u{221d}', '\u{22b3}', '\u{1d4cb}',
    '\u{2acb}', '\u{228a}', '\u{2acc}', '\u{228b}', '\u{299a}', '\u{175}', '\u{2a5f}', '\u{2227}', '\u{2259}',
    '\u{2118}', '\u{1d534}', '\u{1d568}', '\u{2118}', '\u{2240}', '\u{2240}', '\u{1d4cc}', '\u{22c2}', '\u{25ef}',
    '\u{22c3}', '\u{25bd}', '\u{1d535}', '\u{27fa}', '\u{27f7}', '\u{3be}', '\u{27f8}', '\u{27f5}', '\u{27fc}',
    '\u{22fb}', '\u{2a00}', '\u{1d569}', '\u{2a01}', '\u{2a02}', '\u{27f9}', '\u{27f6}', '\u{1d4cd}', '\u{2a06}',
    '\u{2a04}', '\u{25b3}', '\u{22c1}', '\u{22c0}', '\u{fd}', '\u{44f}', '\u{177}', '\u{44b}', '\u{a5}',
    '\u{1d536}', '\u{457}', '\u{1d56a}', '\u{1d4ce}', '\u{44e}', '\u{ff}', '\u{17a}', '\u{17e}', '\u{437}',
    '\u{17c}', '\u{2128}', '\u{3b6}', '\u{1d537}', '\u{436}', '\u{21dd}', '\u{1d56b}', '\u{1d4cf}', '\u{200d}',
    '\u{200c}',
];

/// The second character of each, or U+0000 if it has one alone.
#[rattlefmt::skip]
pub(crate) static SECOND: [char; 2125] = [
    '\u{0}', '\u{0}', '\u{0}', '\u{0}', '\u{0}', '\u{0}', '\u{0}', '\u{0}', '\u{0}', '\u{0}', '\u{0}', '\u{0}',
    '\u{0}', '\u{0}', '\u{0}', '\u{0}', '\u{0}', '\u{0}', '\u{0}', '\u{0}', '\u{0}', '\u{0}', '\u{0}', '\u{0}',
    '\u{0}', '\u{0}', '\u{0}', '\u{0}', '\u{0}', '\u{0}', '\u{0}', '\u{0}', '\u{0}', '\u{0}', '\u{0}', '\u{0}',
    '\u{0}', '\u{0}', '\u{0}', '\u{0}', '\u{0}', '\u{0}', '\u{0}', '\u{0}', '\u{0}', '\u{0}', '\u{0}', '\u{0}',
    '\u{0}', '\u{0}', '\u{0}', '\u{0}', '\u{0}', '\u{0}', '\u{0}', '\u{0}', '\u{0}', '\u{0}', '\u{0}', '\u{0}',
    '\u{0}', '\u{0}', '\u{0}', '\u{0}', '\u{0}', '\u{0}', '\u{0}', '\u{0}', '\u{0}', '\u{0}', '\u{0}', '\u{0}',
    '\u{0}', '\u{0}', '\u{0}', '\u{0}', '\u{0}', '\u{0}', '\u{0}', '\u{0}', '\u{0}', '\u{0}', '\u{0}', '\u{0}',
    '\u{0}', '\u{0}', '\u{0}', '\u{0}', '\u{0}', '\u{0}', '\u{0}', '\u{0}', '\u{0}', '\u{0}', '\u{0}', '\u{0}',
    '\u{0}', '\u{0}', '\u{0}', '\u{0}', '\u{0}', '\u{0}', '\u{0}', '\u{0}', '\u{0}', '\u{0}', '\u{0}', '\u{0}',
    '\u{0}', '\u{0}', '\u{0}', '\u{0}', '\u{0}', '\u{0}', '\u{0}', '\u{0}', '\u{0}', '\u{0}', '\u{0}', '\u{0}',
    '\u{0}', '\u{0}', '\u{0}', '\u{0}', '\u{0}', '\u{0}', '\u{0}', '\u{0}', '\u{0}', '\u{0}', '\u{0}', '\u{0}',
    '\u{0}', '\u{0}', '\u{0}', '\u{0}', '\u{0}', '\u{0}', '\u{0}', '\u{0}', '\u{0}', '\u{0}', '\u{0}', '\u{0}',
    '\u{0}', '\u{0}', '\u{0}', '\u{0}', '\u{0}', '\u{0}', '\u{0}', '\u{0}', '\u{0}', '\u{0}', '\u{0}', '\u{0}',
    '\u{0}', '\u{0}', '\u{0}', '\u{0}', '\u{0}', '\u{0}', '\u{0}', '\u{0}', '\u{0}', '\u{0}', '\u{0}', '\u{0}',
    '\u{0}', '\u{0}', '\u{0}', '\u{0}', '\u{0}', '\u{0}', '\u{0}', '\u{0}', '\u{0}', '\u{0}', '\u{0}', '\u{0}',
    '\u{0}', '\u{0}', '\u{0}', '\u{0}', '\u{0}', '\u{0}', '\u{0}', '\u{0}', '\u{0}', '\u{0}', '\u{0}', '\u{0}',
    '\u{0}', '\u{0}', '\u{0}', '\u{0}', '\u{0}', '\u{0}', '\u{0}', '\u{0}', '\u{0}', '\u{0}', '\u{0}', '\u{0}',
    '\u{0}', '\u{0}', '\u{0}', '\u{0}', '\u{0}', '\u{0}', '\u{0}', '\u{0}', '\u{0}', '\u{0}', '\u{0}', '\u{0}',
    '\u{0}', '\u{0}', '\u{0}', '\u{0}', '\u{0}', '\u{0}', '\u{0}', '\u{0}', '\u{0}', '\u{0}', '\u{0}', '\u{0}',
    '\u{0}', '\u{0}', '\u{0}', '\u{0}', '\u{0}', '\u{0}', '\u{0}', '\u{0}', '\u{0}', '\u{0}', '\u{0}', '\u{0}',
    '\u{0}', '\u{0}', '\u{0}', '\u{0}', '\u{0}', '\u{0}', '\u{0}', '\u{0}', '\u{0}', '\u{0}', '\u{0}', '\u{0}',
    '\u{0}', '\u{0}', '\u{0}', '\u{0}', '\u{0}', '\u{0}', '\u{0}', '\u{0}', '\u{0}', '\u{0}', '\u{0}', '\u{0}',
    '\u{0}', '\u{0}', '\u{0}', '\u{0}', '\u{0}', '\u{0}', '\u{0}', '\u{0}', '\u{0}', '\u{0}', '\u{0}', '\u{0}',
    '\u{0}', '\u{0}', '\u{0}', '\u{0}', '\u{0}', '\u{0}', '\u{0}', '\u{0}', '\u{0}', '\u{0}', '\u{0}', '\u{0}',
    '\u{0}', '\u{0}', '\u{0}', '\u{0}', '\u{0}', '\u{0}', '\u{0}', '\u{0}', '\u{0}', '\u{0}', '\u{0}', '\u{0}',
    '\u{0}', '\u{0}', '\u{0}', '\u{0}', '\u{0}', '\u{0}', '\u{0}', '\u{0}', '\u{0}', '\u{0}', '\u{0}', '\u{0}',
    '\u{0}', '\u{0}', '\u{0}', '\u{338}', '\u{0}', '\u{0}', '\u{0}', '\u{338}', '\u{338}', '\u{0}', '\u{338}',
    '\u{0}', '\u{338}', '\u{338}', '\u{0}', '\u{338}', '\u{0}', '\u{0}', '\u{0}', '\u{0}', '\u{338}', '\u{338}',
    '\u{0}', '\u{338}', '\u{338}', '\u{0}', '\u{338}', '\u{0}', '\u{0}', '\u{0}', '\u{338}', '\u{0}', '\u{338}',
    '\u{0}', '\u{338}', '\u{0}', '\u{20d2}', '\u{0}', '\u{0}', '\u{338}', '\u{0}', '\u{338}', '\u{20d2}', '\u{0}',
    '\u{0}', '\u{0}', '\u{0}', '\u{0}', '\u{0}', '\u{0}', '\u{0}', '\u{0}', '\u{0}', '\u{0}', '\u{0}', '\u{0}',
    '\u{0}', '\u{0}', '\u{0}', '\u{0}', '\u{0}', '\u{0}', '\u{0}', '\u{0}', '\u{0}', '\u{0}', '\u{0}', '\u{0}',
    '\u{0}', '\u{0}', '\u{0}', '\u{0}', '\u{0}', '\u{0}', '\u{0}', '\u{0}', '\u{0}', '\u{0}', '\u{0}', '\u{0}',
    '\u{0}', '\u{0}', '\u{0}', '\u{0}', '\u{0}', '\u{0}', '\u{0}', '\u{0}', '\u{0}', '\u{0}', '\u{0}', '\u{0}',
    '\u{0}', '\u{0}', '\u{0}', '\u{0}', '\u{0}', '\u{0}', '\u{0}', '\u{0}', '\u{0}', '\u{0}', '\u{0}', '\u{0}',
    '\u{0}', '\u{0}', '\u{0}', '\u{0}', '\u{0}', '\u{0}', '\u{0}', '\u{0}', '\u{0}', '\u{0}', '\u{0}', '\u{0}',
    '\u{0}', '\u{0}', '\u{0}', '\u{0}', '\u{0}', '\u{0}', '\u{0}', '\u{0}', '\u{0}', '\u{0}', '\u{0}', '\u{0}',
    '\u{0}', '\u{0}', '\u{0}', '\u{0}', '\u{0}', '\u{0}', '\u{0}', '\u{0}', '\u{0}', '\u{0}', '\u{0}', '\u{0}',
    '\u{0}', '\u{0}', '\u{0}', '\u{0}', '\u{0}', '\u{0}', '\u{0}', '\u{0}', '\u{0}', '\u{0}', '\u{0}', '\u{0}',
    '\u{0}', '\u{0}', '\u{0}', '\u{0}', '\u{0}', '\u{0}', '\u{0}', '\u{0}', '\u{0}', '\u{0}', '\u{0}', '\u{0}',
    '\u{0}', '\u{0}', '\u{0}', '\u{0}', '\u{0}', '\u{0}', '\u{0}', '\u{0}', '\u{0}', '\u{0}', '\u{0}', '\u{0}',
    '\u{0}', '\u{0}', '\u{0}', '\u{0}', '\u{0}', '\u{0}', '\u{0}', '\u{0}', '\u{0}', '\u{0}', '\u{0}', '\u{0}',
    '\u{0}', '\u{0}', '\u{0}', '\u{0}', '\u{0}', '\u{0}', '\u{200a}', '\u{0}', '\u{0}', '\u{0}', '\u{0}', '\u{0}',
    '\u{0}', '\u{0}', '\u{0}', '\u{0}', '\u{0}', '\u{0}', '\u{0}', '\u{0}', '\u{0}', '\u{0}', '\u{0}', '\u{0}',
    '\u{0}', '\u{0}', '\u{0}', '\u{0}', '\u{0}', '\u{0}', '\u{0}', '\u{0}', '\u{0}', '\u{0}', '\u{0}', '\u{0}',
    '\u{0}', '\u{0}', '\u{0}', '\u{0}', '\u{0}', '\u{0}', '\u{0}', '\u{0}', '\u{0}', '\u{0}', '\u{0}', '\u{0}',
    '\u{0}', '\u{0}', '\u{0}', '\u{0}', '\u{0}', '\u{0}', '\u{0}', '\u{0}', '\u{0}', '\u{0}', '\u{0}', '\u{0}',
    '\u{0}', '\u{0}', '\u{0}', '\u{0}', '\u{0}', '\u{0}', '\u{0}', '\u{0}', '\u{0}', '\u{0}', '\u{0}', '\u{0}',
    '\u{0}', '\u{0}', '\u{0}', '\u{0}', '\u{0}', '\u{0}', '\u{0}', '\u{0}', '\u{0}', '\u{0}', '\u{0}', '\u{0}',
    '\u{0}', '\u{0}', '\u{0}', '\u{0}', '\u{0}', '\u{0}', '\u{0}', '\u{0}', '\u{0}', '\u{0}', '\u{0}', '\u{0}',
    '\u{0}', '\u{0}', '\u{0}', '\u{0}', '\u{0}', '\u{333}', '\u{0}', '\u{0}', '\u{0}', '\u{0}', '\u{0}', '\u{0}',
    '\u{0}', '\u{0}', '\u{0}', '\u{0}', '\u{0}', '\u{0}', '\u{0}', '\u{0}', '\u{0}', '\u{0}', '\u{0}', '\u{0}',
    '\u{0}', '\u{0}', '\u{0}', '\u{0}', '\u{0}', '\u{0}', '\u{0}', '\u{0}', '\u{0}', '\u{0}', '\u{0}', '\u{0}',
    '\u{0}', '\u{0}', '\u{0}', '\u{0}', '\u{0}', '\u{0}', '\u{0}', '\u{0}', '\u{0}', '\u{0}', '\u{0}', '\u{0}',
    '\u{0}', '\u{0}', '\u{0}', '\u{0}', '\u{0}', '\u{0}', '\u{0}', '\u{0}', '\u{0}', '\u{0}', '\u{0}', '\u{0}',
    '\u{0}', '\u{0}', '\u{0}', '\u{0}', '\u{0}', '\u{0}', '\u{0}', '\u{0}', '\u{0}', '\u{0}', '\u{0}', '\u{0}',
    '\u{0}', '\u{0}', '\u{0}', '\u{0}', '\u{0}', '\u{0}', '\u{0}', '\u{0}', '\u{0}', '\u{0}', '\u{0}', '\u{0}',
    '\u{0}', '\u{0}', '\u{0}', '\u{0}', '\u{0}', '\u{0}', '\u{0}', '\u{0}', '\u{0}', '\u{0}', '\u{0}', '\u{0}',
    '\u{0}', '\u{0}', '\u{0}', '\u{0}', '\u{0}', '\u{0}', '\u{0}', '\u{0}', '\u{0}', '\u{0}', '\u{0}', '\u{0}',
    '\u{0}', '\u{0}', '\u{20e5}', '\u{20e5}', '\u{0}', '\u{0}', '\u{0}', '\u{0}', '\u{0}', '\u{0}', '\u{0}',
    '\u{0}', '\u{0}', '\u{0}', '\u{0}', '\u{0}', '\u{0}', '\u{0}', '\u{0}', '\u{0}', '\u{0}', '\u{0}', '\u{0}',
    '\u{0}', '\u{0}', '\u{0}', '\u{0}', '\u{0}', '\u{0}', '\u{0}', '\u{0}', '\u{0}', '\u{0}', '\u{0}', '\u{0}',
    '\u{0}', '\u{0}', '\u{0}', '\u{0}', '\u{0}', '\u{0}', '\u{0}', '\u{0}', '\u{0}', '\u{0}', '\u{0}', '\u{0}',
    '\u{0}', '\u{0}', '\u{0}', '\u{0}', '\u{0}', '\u{0}', '\u{0}', '\u{0}', '\u{0}', '\u{0}', '\u{0}', '\u{0}',
    '\u{0}', '\u{0}', '\u{0}', '\u{0}', '\u{0}', '\u{0}', '\u{0}', '\u{0}', '\u{0}', '\u{0}', '\u{0}', '\u{0}',
    '\u{0}', '\u{0}', '\u{0}', '\u{0}', '\u{0}', '\u{fe00}', '\u{0}', '\u{0}', '\u{0}', '\u{0}', '\u{0}', '\u{0}',
    '\u{0}', '\u{0}', '\u{0}', '\u{0}', '\u{0}', '\u{0}', '\u{0}', '\u{0}', '\u{0}', '\u{0}', '\u{0}', '\u{0}',
    '\u{0}', '\u{0}', '\u{0}', '\u{0}', '\u{0}', '\u{0}', '\u{0}', '\u{0}', '\u{0}', '\u{0}', '\u{0}', '\u{0}',
    '\u{0}', '\u{0}', '\u{0}', '\u{0}', '\u{0}', '\u{0}', '\u{0}', '\u{0}', '\u{0}', '\u{0}', '\u{0}', '\u{0}',
    '\u{0}', '\u{0}', '\u{0}', '\u{0}', '\u{0}', '\u{0}', '\u{0}', '\u{0}', '\u{0}', '\u{0}', '\u{0}', '\u{0}',
    '\u{0}', '\u{0}', '\u{0}', '\u{0}', '\u{0}', '\u{0}', '\u{0}', '\u{0}', '\u{0}', '\u{0}', '\u{0}', '\u{0}',
    '\u{0}', '\u{0}', '\u{0}', '\u{0}', '\u{0}', '\u{fe00}', '\u{0}', '\u{0}', '\u{0}', '\u{0}', '\u{0}', '\u{0}',
    '\u{0}', '\u{0}', '\u{0}', '\u{0}', '\u{0}', '\u{0}', '\u{0}', '\u{0}', '\u{0}', '\u{0}', '\u{0}', '\u{0}',
    '\u{0}', '\u{0}', '\u{0}', '\u{0}', '\u{0}', '\u{0}', '\u{0}', '\u{0}', '\u{0}', '\u{0}', '\u{0}', '\u{0}',
    '\u{0}', '\u{0}', '\u{0}', '\u{0}', '\u{0}', '\u{0}', '\u{0}', '\u{0}', '\u{0}', '\u{0}', '\u{0}', '\u{0}',
    '\u{0}', '\u{0}', '\u{0}', '\u{0}', '\u{0}', '\u{0}', '\u{0}', '\u{0}', '\u{0}', '\u{0}', '\u{0}', '\u{0}',
    '\u{0}', '\u{0}', '\u{0}', '\u{0}', '\u{0}', '\u{0}', '\u{0}', '\u{0}', '\u{0}', '\u{0}', '\u{0}', '\u{0}',
    '\u{0}', '\u{0}', '\u{0}', '\u{0}', '\u{0}', '\u{0}', '\u{0}', '\u{0}', '\u{0}', '\u{0}', '\u{0}', '\u{0}',
    '\u{0}', '\u{0}', '\u{0}', '\u{0}', '\u{0}', '\u{0}', '\u{0}', '\u{0}', '\u{0}', '\u{0}', '\u{0}', '\u{0}',
    '\u{0}', '\u{0}', '\u{0}', '\u{0}', '\u{0}', '\u{0}', '\u{0}', '\u{0}', '\u{0}', '\u{0}', '\u{0}', '\u{0}',
    '\u{0}', '\u{0}', '\u{0}', '\u{0}', '\u{0}', '\u{0}', '\u{0}', '\u{0}', '\u{0}', '\u{0}', '\u{0}', '\u{0}',
    '\u{0}', '\u{0}', '\u{0}', '\u{0}', '\u{0}', '\u{0}', '\u{0}', '\u{0}', '\u{0}', '\u{0}', '\u{0}', '\u{0}',
    '\u{0}', '\u{0}', '\u{0}', '\u{0}', '\u{0}', '\u{0}', '\u{0}', '\u{0}', '\u{0}', '\u{0}', '\u{0}', '\u{0}',
    '\u{0}', '\u{0}', '\u{0}', '\u{0}', '\u{0}', '\u{0}', '\u{0}', '\u{0}', '\u{0}', '\u{0}', '\u{6a}', '\u{0}',
    '\u{0}', '\u{0}', '\u{0}', '\u{0}', '\u{0}', '\u{0}', '\u{0}', '\u{0}', '\u{0}', '\u{0}', '\u{0}', '\u{0}',
    '\u{0}', '\u{0}', '\u{0}', '\u{0}', '\u{0}', '\u{0}', '\u{0}', '\u{0}', '\u{0}', '\u{0}', '\u{0}', '\u{0}',
    '\u{0}', '\u{0}', '\u{0}', '\u{0}', '\u{0}', '\u{0}', '\u{0}', '\u{0}', '\u{0}', '\u{0}', '\u{0}', '\u{0}',
    '\u{0}', '\u{0}', '\u{0}', '\u{0}', '\u{0}', '\u{0}', '\u{0}', '\u{0}', '\u{0}', '\u{0}', '\u{fe00}', '\u{0}',
    '\u{0}', '\u{0}', '\u{0}', '\u{0}', '\u{0}', '\u{0}', '\u{0}', '\u{0}', '\u{0}', '\u{0}', '\u{0}', '\u{0}',
    '\u{0}', '\u{0}', '\u{0}', '\u{0}', '\u{0}', '\u{0}', '\u{0}', '\u{0}', '\u{0}', '\u{0}', '\u{0}', '\u{0}',
    '\u{0}', '\u{0}', '\u{0}', '\u{0}', '\u{0}', '\u{0}', '\u{0}', '\u{0}', '\u{0}', '\u{0}', '\u{0}', '\u{fe00}',
    '\u{fe00}', '\u{0}', '\u{0}', '\u{0}', '\u{0}', '\u{0}', '\u{0}', '\u{0}', '\u{0}', '\u{0}', '\u{0}', '\u{0}',
    '\u{0}', '\u{0}', '\u{0}', '\u{0}', '\u{0}', '\u{0}', '\u{0}', '\u{0}', '\u{0}', '\u{0}', '\u{0}', '\u{0}',
    '\u{0}', '\u{0}', '\u{0}', '\u{0}', '\u{0}', '\u{0}', '\u{0}', '\u{0}', '\u{0}', '\u{0}', '\u{0}', '\u{0}',
    '\u{0}', '\u{0}', '\u{0}', '\u{0}', '\u{0}', '\u{0}', '\u{0}', '\u{0}', '\u{0}', '\u{0}', '\u{0}', '\u{0}',
    '\u{0}', '\u{0}', '\u{0}', '\u{0}', '\u{0}', '\u{0}', '\u{0}', '\u{0}', '\u{0}', '\u{0}', '\u{0}', '\u{0}',
    '\u{0}', '\u{0}', '\u{0}', '\u{0}', '\u{0}', '\u{0}', '\u{0}', '\u{0}', '\u{0}', '\u{0}', '\u{0}', '\u{0}',
    '\u{0}', '\u{0}', '\u{0}', '\u{0}', '\u{0}', '\u{0}', '\u{0}', '\u{0}', '\u{0}', '\u{0}', '\u{0}', '\u{0}',
    '\u{0}', '\u{0}', '\u{0}', '\u{0}', '\u{0}', '\u{0}', '\u{0}', '\u{0}', '\u{0}', '\u{0}', '\u{0}', '\u{0}',
    '\u{0}', '\u{0}', '\u{0}', '\u{0}', '\u{0}', '\u{0}', '\u{0}', '\u{0}', '\u{0}', '\u{0}', '\u{0}', '\u{0}',
    '\u{0}', '\u{0}', '\u{0}', '\u{0}', '\u{0}', '\u{0}', '\u{0}', '\u{0}', '\u{0}', '\u{0}', '\u{0}', '\u{0}',
    '\u{0}', '\u{0}', '\u{0}', '\u{0}', '\u{0}', '\u{fe00}', '\u{0}', '\u{0}', '\u{0}', '\u{0}', '\u{0}', '\u{0}',
    '\u{0}', '\u{0}', '\u{0}', '\u{0}', '\u{0}', '\u{0}', '\u{0}', '\u{0}', '\u{0}', '\u{0}', '\u{0}', '\u{0}',
    '\u{0}', '\u{0}', '\u{0}', '\u{0}', '\u{0}', '\u{0}', '\u{0}', '\u{0}', '\u{0}', '\u{0}', '\u{0}', '\u{0}',
    '\u{0}', '\u{0}', '\u{0}', '\u{0}', '\u{0}', '\u{0}', '\u{0}', '\u{0}', '\u{fe00}', '\u{0}', '\u{0}', '\u{0}',
    '\u{0}', '\u{0}', '\u{0}', '\u{0}', '\u{0}', '\u{0}', '\u{0}', '\u{0}', '\u{0}', '\u{0}', '\u{0}', '\u{0}',
    '\u{0}', '\u{0}', '\u{0}', '\u{0}', '\u{0}', '\u{0}', '\u{0}', '\u{0}', '\u{0}', '\u{0}', '\u{0}', '\u{0}',
    '\u{0}', '\u{0}', '\u{0}', '\u{0}', '\u{0}', '\u{0}', '\u{0}', '\u{0}', '\u{0}', '\u{0}', '\u{0}', '\u{0}',
    '\u{0}', '\u{0}', '\u{0}', '\u{0}', '\u{0}', '\u{0}', '\u{0}', '\u{0}', '\u{0}', '\u{0}', '\u{0}', '\u{0}',
    '\u{0}', '\u{0}', '\u{0}', '\u{0}', '\u{0}', '\u{0}', '\u{0}', '\u{0}', '\u{0}', '\u{0}', '\u{0}', '\u{0}',
    '\u{0}', '\u{0}', '\u{0}', '\u{0}', '\u{0}', '\u{0}', '\u{0}', '\u{0}', '\u{0}', '\u{0}', '\u{0}', '\u{0}',
    '\u{0}', '\u{0}', '\u{0}', '\u{0}', '\u{0}', '\u{0}', '\u{0}', '\u{fe00}', '\u{fe00}', '\u{0}', '\u{0}',
    '\u{0}', '\u{0}', '\u{0}', '\u{0}', '\u{0}', '\u{0}', '\u{0}', '\u{0}', '\u{0}', '\u{0}', '\u{0}', '\u{0}',
    '\u{0}', '\u{0}', '\u{0}', '\u{0}', '\u{0}', '\u{0}', '\u{0}', '\u{0}', '\u{0}', '\u{0}', '\u{0}', '\u{0}',
    '\u{0}', '\u{0}', '\u{0}', '\u{0}', '\u{0}', '\u{0}', '\u{0}', '\u{0}', '\u{0}', '\u{0}', '\u{0}', '\u{338}',
    '\u{20d2}', '\u{338}', '\u{0}', '\u{0}', '\u{338}', '\u{20d2}', '\u{338}', '\u{0}', '\u{0}', '\u{0}', '\u{0}',
    '\u{0}', '\u{20d2}', '\u{0}', '\u{338}', '\u{338}', '\u{0}', '\u{0}', '\u{0}', '\u{0}', '\u{0}', '\u{0}',
    '\u{338}', '\u{338}', '\u{0}', '\u{0}', '\u{0}', '\u{0}', '\u{338}', '\u{0}', '\u{0}', '\u{0}', '\u{0}',
    '\u{0}', '\u{0}', '\u{0}', '\u{0}', '\u{338}', '\u{0}', '\u{0}', '\u{338}', '\u{0}', '\u{0}', '\u{0}',
    '\u{338}', '\u{0}', '\u{0}', '\u{338}', '\u{338}', '\u{338}', '\u{0}', '\u{0}', '\u{0}', '\u{0}', '\u{0}',
    '\u{0}', '\u{0}', '\u{0}', '\u{0}', '\u{0}', '\u{0}', '\u{0}', '\u{338}', '\u{0}', '\u{0}', '\u{0}', '\u{0}',
    '\u{0}', '\u{0}', '\u{338}', '\u{338}', '\u{338}', '\u{0}', '\u{0}', '\u{0}', '\u{0}', '\u{0}', '\u{0}',
    '\u{0}', '\u{0}', '\u{0}', '\u{338}', '\u{338}', '\u{0}', '\u{0}', '\u{0}', '\u{0}', '\u{0}', '\u{0}', '\u{0}',
    '\u{0}', '\u{0}', '\u{20e5}', '\u{338}', '\u{0}', '\u{0}', '\u{0}', '\u{338}', '\u{0}', '\u{338}', '\u{0}',
    '\u{0}', '\u{338}', '\u{338}', '\u{0}', '\u{0}', '\u{0}', '\u{0}', '\u{0}', '\u{338}', '\u{0}', '\u{0}',
    '\u{0}', '\u{0}', '\u{0}', '\u{0}', '\u{0}', '\u{0}', '\u{0}', '\u{0}', '\u{0}', '\u{338}', '\u{0}', '\u{20d2}',
    '\u{0}', '\u{338}', '\u{0}', '\u{338}', '\u{0}', '\u{338}', '\u{0}', '\u{20d2}', '\u{0}', '\u{338}', '\u{0}',
    '\u{0}', '\u{0}', '\u{0}', '\u{0}', '\u{0}', '\u{0}', '\u{0}', '\u{0}', '\u{0}', '\u{0}', '\u{0}', '\u{0}',
    '\u{20d2}', '\u{0}', '\u{20d2}', '\u{20d2}', '\u{0}', '\u{0}', '\u{20d2}', '\u{20d2}', '\u{20d2}', '\u{0}',
    '\u{20d2}', '\u{20d2}', '\u{0}', '\u{0}', '\u{0}', '\u{0}', '\u{0}', '\u{0}', '\u{0}', '\u{0}', '\u{0}',
    '\u{0}', '\u{0}', '\u{0}', '\u{0}', '\u{0}', '\u{0}', '\u{0}', '\u{0}', '\u{0}', '\u{0}', '\u{0}', '\u{0}',
    '\u{0}', '\u{0}', '\u{0}', '\u{0}', '\u{0}', '\u{0}', '\u{0}', '\u{0}', '\u{0}', '\u{0}', '\u{0}', '\u{0}',
    '\u{0}', '\u{0}', '\u{0}', '\u{0}', '\u{0}', '\u{0}', '\u{0}', '\u{0}', '\u{0}', '\u{0}', '\u{0}', '\u{0}',
    '\u{0}', '\u{0}', '\u{0}', '\u{0}', '\u{0}', '\u{0}', '\u{0}', '\u{0}', '\u{0}', '\u{0}', '\u{0}', '\u{0}',
    '\u{0}', '\u{0}', '\u{0}', '\u{0}', '\u{0}', '\u{0}', '\u{0}', '\u{0}', '\u{0}', '\u{0}', '\u{0}', '\u{0}',
    '\u{0}', '\u{0}', '\u{0}', '\u{0}', '\u{0}', '\u{0}', '\u{0}', '\u{0}', '\u{0}', '\u{0}', '\u{0}', '\u{0}',
    '\u{0}', '\u{0}', '\u{0}', '\u{0}', '\u{0}', '\u{0}', '\u{0}', '\u{0}', '\u{0}', '\u{0}', '\u{0}', '\u{0}',
    '\u{0}', '\u{0}', '\u{0}', '\u{0}', '\u{0}', '\u{0}', '\u{0}', '\u{0}', '\u{0}', '\u{0}', '\u{0}', '\u{0}',
    '\u{0}', '\u{0}', '\u{0}', '\u{0}', '\u{0}', '\u{0}', '\u{0}', '\u{0}', '\u{0}', '\u{0}', '\u{0}', '\u{0}',
    '\u{0}', '\u{0}', '\u{0}', '\u{0}', '\u{0}', '\u{0}', '\u{0}', '\u{0}', '\u{0}', '\u{0}', '\u{0}', '\u{0}',
    '\u{0}', '\u{0}', '\u{0}', '\u{0}', '\u{0}', '\u{0}', '\u{0}', '\u{0}', '\u{0}', '\u{0}', '\u{331}', '\u{0}',
    '\u{0}', '\u{0}', '\u{0}', '\u{0}', '\u{0}', '\u{0}', '\u{0}', '\u{0}', '\u{0}', '\u{0}', '\u{0}', '\u{0}',
    '\u{0}', '\u{0}', '\u{0}', '\u{0}', '\u{0}', '\u{0}', '\u{0}', '\u{0}', '\u{0}', '\u{0}', '\u{0}', '\u{0}',
    '\u{0}', '\u{0}', '\u{0}', '\u{0}', '\u{0}', '\u{0}', '\u{0}', '\u{0}', '\u{0}', '\u{0}', '\u{0}', '\u{0}',
    '\u{0}', '\u{0}', '\u{0}', '\u{0}', '\u{0}', '\u{0}', '\u{0}', '\u{0}', '\u{0}', '\u{0}', '\u{0}', '\u{0}',
    '\u{0}', '\u{0}', '\u{0}', '\u{0}', '\u{0}', '\u{0}', '\u{0}', '\u{0}', '\u{0}', '\u{0}', '\u{0}', '\u{0}',
    '\u{0}', '\u{0}', '\u{0}', '\u{0}', '\u{0}', '\u{0}', '\u{0}', '\u{0}', '\u{0}', '\u{0}', '\u{0}', '\u{0}',
    '\u{0}', '\u{0}', '\u{0}', '\u{0}', '\u{0}', '\u{0}', '\u{0}', '\u{0}', '\u{0}', '\u{0}', '\u{0}', '\u{0}',
    '\u{0}', '\u{0}', '\u{0}', '\u{0}', '\u{0}', '\u{0}', '\u{0}', '\u{0}', '\u{0}', '\u{0}', '\u{0}', '\u{0}',
    '\u{0}', '\u{0}', '\u{0}', '\u{0}', '\u{0}', '\u{0}', '\u{0}', '\u{0}', '\u{0}', '\u{0}', '\u{0}', '\u{0}',
    '\u{0}', '\u{0}', '\u{0}', '\u{0}', '\u{0}', '\u{0}', '\u{0}', '\u{0}', '\u{0}', '\u{0}', '\u{0}', '\u{0}',
    '\u{0}', '\u{0}', '\u{0}', '\u{0}', '\u{0}', '\u{0}', '\u{0}', '\u{0}', '\u{0}', '\u{0}', '\u{0}', '\u{0}',
    '\u{0}', '\u{0}', '\u{0}', '\u{0}', '\u{0}', '\u{0}', '\u{0}', '\u{0}', '\u{0}', '\u{0}', '\u{0}', '\u{0}',
    '\u{0}', '\u{0}', '\u{0}', '\u{0}', '\u{0}', '\u{0}', '\u{0}', '\u{0}', '\u{0}', '\u{0}', '\u{fe00}', '\u{0}',
    '\u{0}', '\u{0}', '\u{0}', '\u{0}', '\u{0}', '\u{0}', '\u{0}', '\u{0}', '\u{fe00}', '\u{0}', '\u{fe00}',
    '\u{0}', '\u{0}', '\u{0}', '\u{0}', '\u{0}', '\u{0}', '\u{0}', '\u{0}', '\u{0}', '\u{0}', '\u{0}', '\u{0}',
    '\u{0}', '\u{0}', '\u{0}', '\u{0}', '\u{0}', '\u{0}', '\u{0}', '\u{0}', '\u{0}', '\u{0}', '\u{0}', '\u{0}',
    '\u{0}', '\u{0}', '\u{0}', '\u{0}', '\u{0}', '\u{0}', '\u{0}', '\u{0}', '\u{0}', '\u{0}', '\u{0}', '\u{0}',
    '\u{0}', '\u{0}', '\u{0}', '\u{0}', '\u{0}', '\u{0}', '\u{0}', '\u{0}', '\u{0}', '\u{0}', '\u{0}', '\u{0}',
    '\u{0}', '\u{0}', '\u{0}', '\u{0}', '\u{0}', '\u{0}', '\u{0}', '\u{0}', '\u{0}', '\u{0}', '\u{0}', '\u{0}',
    '\u{0}', '\u{0}', '\u{0}', '\u{0}', '\u{0}', '\u{0}', '\u{0}', '\u{0}', '\u{0}', '\u{0}', '\u{0}', '\u{0}',
    '\u{0}', '\u{0}', '\u{0}', '\u{0}', '\u{0}', '\u{0}', '\u{0}', '\u{0}', '\u{0}', '\u{0}', '\u{0}', '\u{0}',
    '\u{0}', '\u{0}', '\u{0}', '\u{0}', '\u{0}', '\u{0}', '\u{0}', '\u{0}', '\u{0}', '\u{0}', '\u{0}', '\u{0}',
    '\u{0}', '\u{0}', '\u{0}', '\u{0}', '\u{0}', '\u{0}', '\u{0}', '\u{0}', '\u{0}', '\u{0}', '\u{0}', '\u{0}',
    '\u{0}', '\u{0}', '\u{0}', '\u{0}', '\u{0}', '\u{0}', '\u{0}', '\u{0}', '\u{0}', '\u{0}', '\u{0}', '\u{0}',
    '\u{0}', '\u{0}', '\u{0}', '\u{0}', '\u{0}', '\u{0}', '\u{0}', '\u{0}', '\u{0}', '\u{0}', '\u{0}', '\u{0}',
    '\u{0}', '\u{0}', '\u{0}', '\u{0}', '\u{0}', '\u{0}', '\u{0}', '\u{0}', '\u{0}', '\u{0}', '\u{0}', '\u{0}',
    '\u{0}', '\u{0}', '\u{0}', '\u{0}', '\u{0}', '\u{0}', '\u{0}', '\u{0}', '\u{0}', '\u{0}', '\u{0}', '\u{0}',
    '\u{0}', '\u{0}', '\u{0}', '\u{0}', '\u{0}', '\u{0}', '\u{0}', '\u{0}', '\u{0}', '\u{0}', '\u{0}', '\u{0}',
    '\u{0}', '\u{0}', '\u{0}', '\u{0}', '\u{0}', '\u{0}', '\u{0}', '\u{0}', '\u{0}', '\u{0}', '\u{0}', '\u{0}',
    '\u{0}', '\u{0}', '\u{0}', '\u{0}', '\u{0}', '\u{0}', '\u{0}', '\u{0}', '\u{0}', '\u{0}', '\u{0}', '\u{0}',
    '\u{0}', '\u{0}', '\u{0}', '\u{0}', '\u{0}', '\u{fe00}', '\u{fe00}', '\u{fe00}', '\u{fe00}', '\u{0}', '\u{0}',
    '\u{0}', '\u{0}', '\u{0}', '\u{0}', '\u{0}', '\u{0}', '\u{0}', '\u{0}', '\u{0}', '\u{0}', '\u{0}', '\u{20d2}',
    '\u{20d2}', '\u{0}', '\u{0}', '\u{0}', '\u{0}', '\u{fe00}', '\u{fe00}', '\u{fe00}', '\u{fe00}', '\u{0}',
    '\u{0}', '\u{0}', '\u{0}', '\u{0}', '\u{0}', '\u{0}', '\u{0}', '\u{0}', '\u{0}', '\u{0}', '\u{0}', '\u{0}',
    '\u{0}', '\u{0}', '\u{0}', '\u{0}', '\u{0}', '\u{0}', '\u{0}', '\u{0}', '\u{0}', '\u{0}', '\u{0}', '\u{0}',
    '\u{0}', '\u{0}', '\u{0}', '\u{0}', '\u{0}', '\u{0}', '\u{0}', '\u{0}', '\u{0}', '\u{0}', '\u{0}', '\u{0}',
    '\u{0}', '\u{0}', '\u{0}', '\u{0}', '\u{0}', '\u{0}', '\u{0}', '\u{0}', '\u{0}', '\u{0}', '\u{0}', '\u{0}',
    '\u{0}', '\u{0}', '\u{0}', '\u{0}', '\u{0}', '\u{0}', '\u{0}', '\u{0}', '\u{0}', '\u{0}', '\u{0}',
];
